// /c_get
ghost use Rattle.model.specs.declared.Query.TheVariants as query;
ghost use Rattle.model.specs.Answers.{replied_or};
ghost use Rattle.state.specs.Known.{Known};
ghost use Rattle.state.specs.Does.{Reply};

use controls::is_bus;
use layout::{BUSES, BUSES_END};
use refusals::Refusal;
use replies::send_words;
use values::bus_at;

// A bus's float, as /c_set.
pub fn bus_query(
    words: &[u32],
    arena: &[u8],
    bytes: &[u8],
    out: &mut [u8],
    bus: u32,
) -> Result<usize, Refusal>
    requires { Known words.now arena.now }
    ensures { Reply (query.Bus bus) bytes.now words.now arena.now out.old (replied_or result) out.new }
{
    if !is_bus(bus) {
        return Err(Refusal::NoBus);
    }
    let value = bus_at(&words[BUSES..BUSES_END], bus);
    let arguments = [bus, value];
    send_words(out, b"/c_set", b",if", &arguments)
}
