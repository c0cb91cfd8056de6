// The part of a sheet file that is a body (paper 01, "The sheet file": "the body handed out for a kind").
//
// Every function is total, and its contract is an equation with a definition of specs/Body. A kind is no enum: a caller may give any byte,
// and another than 1 to 4 is refused (`body_refusal`).
#![tactic(auto)]

mod parts;

ghost use Rattle.std.specs.Prelude.{◌≡◌};
ghost use Rattle.answers.specs.Numbers.{checked_as};
ghost use Rattle.body.specs.Body.{body_of, body_refusal};

use answers::file::Refusal;
use contents::entries;

// The part of the file that is the body of this kind; an empty part where `body_refusal` refuses.
pub fn body(file: &[u8], kind: u8) -> &[u8]
    ensures { result.now ≡ body_of file.now kind }
{
    let contents = entries::contents_of(file);
    let ok = parts::has_body(file, contents, kind);
    let start = parts::start_of(contents, kind);
    let end = parts::end_of(file, contents, kind);
    parts::part(file, ok, start, end)
}

// Why `body` hands out an empty part: the file's refusal 2 or 3, else 3, place 0, for a kind other
// than 1, 2, 3 and 4.
#[tactic(auto, unfolding(crate::specs::Body::body_refusal))]
pub fn body_refusal(file: &[u8], kind: u8) -> Result<(), Refusal>
    ensures { checked_as result ≡ body_refusal file.now kind }
{
    if !entries::sized(file) {
        return Err(Refusal::Size);
    }
    let contents = entries::contents_of(file);
    let cursor = contents.cursor;
    if !cursor.ok {
        return Err(Refusal::Contents(cursor.at));
    }
    if parts::is_kind(kind) {
        Ok(())
    } else {
        Err(Refusal::Contents(0))
    }
}
