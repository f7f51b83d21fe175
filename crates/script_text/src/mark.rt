//! The byte order mark of a text.
ghost use Rattle.std.specs.Prelude.{◌≡◌, IfOk, IfSome, None, Some, option_to_list};
ghost use Rattle.std.specs.Io.KnownBytes.{Consumes, IsAtEnd, prepend_known};
ghost use Rattle.script_text.specs.Lines.{after_mark};

use arrayvec::ArrayVec;
use std::io;
use std::io::Read;

/// Takes the next byte of a reader; `None` at the end.
fn next_of<R: Read>(reader: &mut R) -> io::Result<Option<u8>>
    ensures taken { IfOk result (λ byte.
        Consumes (R.remaining reader.old) (R.remaining reader.new) (option_to_list byte)) }
    ensures ended { IfOk result (λ byte. byte ≡ None → IsAtEnd (R.remaining reader.new)) }
{
    let mut byte = [0];
    match reader.read(&mut byte)? {
        0 => Ok(None),
        _ => Ok(Some(byte[0])),
    }
}

/// Reads the first three bytes of a text, and returns those that belong to it: none of a byte order mark. The rest of
/// the text stays with the reader. Each failure of the reader is returned, an interruption too.
#[tactic(auto, using(crate::proofs::MarkLemmas::one, crate::proofs::MarkLemmas::two, crate::proofs::MarkLemmas::three))]
pub fn skip_mark<R: Read>(reader: &mut R) -> io::Result<ArrayVec<u8, 3>>
    ensures { IfOk result (λ front. IfSome (R.remaining reader.old) (λ text.
        prepend_known front.items (R.remaining reader.new) ≡ Some (after_mark text))) }
{
    let mut front = ArrayVec::new();
    let Some(first) = next_of(reader)? else {
        return Ok(front);
    };
    front.push(first);
    let Some(second) = next_of(reader)? else {
        return Ok(front);
    };
    front.push(second);
    let Some(third) = next_of(reader)? else {
        return Ok(front);
    };
    if first == 0xef && second == 0xbb && third == 0xbf {
        return Ok(ArrayVec::new());
    }
    front.push(third);
    Ok(front)
}
