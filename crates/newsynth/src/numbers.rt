// The number of a new synth: as told, or for -1 the next one, which falls.
ghost use Rattle.std.specs.Prelude.{◌≤◌, ◌≡◌};
ghost use Rattle.model.specs.Effects.{number_for, next_after};
ghost use Rattle.treecommands.specs.Ready.{Ready};
ghost use Rattle.newsynth.specs.Checks.{bad_number, live_in, spent};

use names::place_of;
use words::MINUS_ONE;

// Below -1.
pub fn bad_number(number: u32) -> bool
    ensures { result ≡ bad_number number }
{
    2147483648 <= number && number != MINUS_ONE
}

// A number other than -1 that is live.
pub fn is_live(number: u32, words: &[u32]) -> bool
    requires { Ready words.now }
    ensures { result ≡ live_in number words.now }
{
    number != MINUS_ONE && place_of(words, number).is_some()
}

// For -1, that no number is left.
pub fn is_spent(number: u32, next: u32) -> bool
    ensures { result ≡ spent number next }
{
    number == MINUS_ONE && next == 2147483647
}

pub fn number_for(number: u32, next: u32) -> u32
    ensures { result ≡ number_for number next }
{
    if number == MINUS_ONE { next } else { number }
}

pub fn next_after(number: u32, next: u32) -> u32
    requires { 1 ≤ next }
    ensures { result ≡ next_after number next }
{
    if number == MINUS_ONE { next - 1 } else { next }
}
