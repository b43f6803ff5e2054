// What a save answers as one number.
ghost use Rattle.std.specs.Prelude.{◌≡◌};
ghost use Rattle.settings.specs.Numbers.{saved_number};

use refusals::Refusal;

// The refusal's number, or the version from bit 8 on.
// Kept: one number for C, whose layout the definition gives.
pub fn saved_number(saved: Result<u32, Refusal>) -> u64
    ensures { result ≡ saved_number saved }
{
    match saved {
        Ok(version) => 256 * u64::from(version),
        Err(refusal) => u64::from(u32::from(refusal)),
    }
}
