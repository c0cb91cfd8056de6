// The part of a file that is the body of a kind, which may be any byte here too.
ghost use Rattle.std.specs.Prelude.{◌≡◌, [], ◌-◌, take, drop, cond, ◌&&◌};
ghost use Rattle.body.specs.Body.{is_kind, start_of, end_of};
ghost use Rattle.contents.specs.Contents.{sized};

use contents::Contents;
use contents::entries::sized;

// Whether a kind is 1, 2, 3 or 4.
#[tactic(auto, unfolding(crate::specs::Body::is_kind))]
pub fn is_kind(kind: u8) -> bool
    ensures { result ≡ is_kind kind }
{
    (1..=4).contains(&kind)
}

// Where the body of a kind starts.
#[tactic(auto, unfolding(crate::specs::Body::start_of))]
pub fn start_of(contents: Contents, kind: u8) -> usize
    ensures { result ≡ start_of contents kind }
{
    match kind {
        1 => 22,
        2 => contents.first as usize,
        3 => contents.second as usize,
        _ => contents.third as usize,
    }
}

// Where the body of a kind ends.
#[tactic(auto, unfolding(crate::specs::Body::end_of))]
pub fn end_of(file: &[u8], contents: Contents, kind: u8) -> usize
    ensures { result ≡ end_of file.now contents kind }
{
    match kind {
        1 => contents.first as usize,
        2 => contents.second as usize,
        3 => contents.third as usize,
        _ => file.len(),
    }
}

// Whether the file, whose contents these are, has a body of this kind to hand out.
pub fn has_body(file: &[u8], contents: Contents, kind: u8) -> bool
    ensures { result ≡ (sized file.now && (contents.cursor.ok && is_kind kind)) }
{
    let cursor = contents.cursor;
    sized(file) && (cursor.ok && is_kind(kind))
}

// The bytes from `start` up to `end`, as far as the file has them; none unless `ok`.
pub fn part(file: &[u8], ok: bool, start: usize, end: usize) -> &[u8]
    ensures { result.now ≡ cond ok (take (end - start) (drop start file.now)) [] }
{
    if !ok {
        return &file[..0];
    }
    let first = start.min(file.len());
    &file[first..end.clamp(first, file.len())]
}
