// Parts of a file that are skipped one after the other.
ghost use Rattle.std.specs.Prelude.{ℕ, ◌≡◌, Result};
ghost use Rattle.faults.specs.declared.FileError.{FileError};
ghost use Rattle.fields.specs.declared.cursor.Cursor.{Cursor};
ghost use Rattle.fields.specs.Answers.{step_of};
ghost use Rattle.format.specs.Read.{Read, ending, repeat};

use crate::cursor::Cursor;
use faults::FileError;

// So many parts, one after the other, of which only the end is kept.
#[tactic(auto, using(format::specs::RepeatLaws::ending_turn, format::specs::RepeatLaws::ending_none, std::proofs::lemmas::Result::err_from_is_err_and))]
pub fn skip_many<F: Fn(Cursor) -> Result<Cursor, FileError>>(
    cursor: Cursor,
    count: u32,
    one: F,
) -> Result<Cursor, FileError>
    requires { F.IsAlwaysCallable one }
    ensures { (read : ℕ → Read (Unit {0})) → ((here : Cursor) (r : Result Cursor FileError) → F.post one here r → step_of r ≡ read here.at) → step_of result ≡ ending (repeat read count cursor.at) }
{
    let mut here = cursor;
    for _ in 0..count {
        here = one(here)?;
    }
    Ok(here)
}
