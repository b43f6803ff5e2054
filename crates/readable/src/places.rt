// Where the parts of a front stand.
ghost use Rattle.std.specs.Prelude.{ℕ, ◌≡◌};
ghost use Rattle.format.specs.Definition.{Front};
ghost use Rattle.format.specs.declared.Width.TheVariants.{Long};
ghost use Rattle.front.specs.Front.{counts_of};
ghost use Rattle.format.specs.Read.{got};
ghost use Rattle.format.specs.Reader.{read_front};
ghost use Rattle.readable.specs.Readable.{Readable};

use fields::word_at;
use front::Counts;

// The counts and places of a front.
pub(crate) fn counts(s: &[u8]) -> Counts
    requires { Readable s.now }
    ensures { (f : Front) (end : ℕ) → read_front s.now 0 ≡ got f end → result ≡ counts_of Long 0 f }
{
    let past = 1 + s[0] as usize;
    let constants = word_at(s, past);
    let before = past + 4 + 4 * constants as usize;
    let parameters = word_at(s, before);
    let values = before + 4;
    let behind = values + 4 * parameters as usize;
    let names = word_at(s, behind);
    Counts {
        past,
        constants,
        values,
        parameters,
        first: behind + 4,
        names,
    }
}
