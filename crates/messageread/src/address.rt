// An address against those of the table. Three bytes of it say which op can have it.
ghost use Rattle.std.specs.Prelude.{◌+◌, ◌*◌, ◌<◌, ◌≡◌, get_or};
ghost use Rattle.format.specs.Reader.{same_name};
ghost use Rattle.messages.specs.Rows.{address_of};
ghost use Rattle.messageread.specs.Lookup.{candidates, candidate_of};
ghost use Rattle.messageread.specs.AddressLaws.{Known};

use calls::ops;
use fields::word_at;
use messages::{address_end, address_length, address_middle, address_start};

// The first op of an address by the key of its bytes.
fn first_op(key: usize) -> u32
    ensures { result ≡ get_or candidates key 0 }
{
    match key {
        0 => ops::NONE,
        1 => ops::G_TAIL,
        2 => ops::N_AFTER,
        3 => ops::S_GET,
        4 => ops::STATUS,
        5 => ops::G_FREE_ALL,
        6 => ops::G_NEW,
        7 => ops::N_QUERY,
        8 => ops::NONE,
        9 => ops::NONE,
        10 => ops::S_NEW,
        11 => ops::C_SET,
        12 => ops::N_SET,
        13 => ops::N_BEFORE,
        14 => ops::NONE,
        15 => ops::NONE,
        16 => ops::NONE,
        17 => ops::G_HEAD,
        18 => ops::D_RECV,
        19 => ops::C_GET,
        20 => ops::N_MAP,
        21 => ops::N_FREE,
        22 => ops::G_QUERY_TREE,
        23 => ops::D_FREE,
        24 => ops::N_RUN,
        25 => ops::C_FILL,
        26 => ops::N_FILL,
        27 => ops::NONE,
        28 => ops::G_DEEP_FREE,
        _ => ops::NONE,
    }
}

pub(crate) fn candidate(address: &[u8]) -> u32
    ensures { result ≡ candidate_of address.now }
{
    let size = address.len();
    if size < 6 {
        return ops::NONE;
    }
    let last = size - 1;
    first_op(
        (3 * usize::from(address[1])
            + 2 * usize::from(address[3])
            + 19 * usize::from(address[last]))
            % 32,
    )
}

// The address is that of an op: four bytes at a time, the last four from the end.
// Early returns: as one chain of `&&` six goals stayed open over the joins.
pub(crate) fn same_address(address: &[u8], op: u32) -> bool
    requires { Known op }
    ensures { result ≡ same_name address.now (address_of op) }
{
    let size = address.len();
    if size != address_length(op) {
        return false;
    }
    if word_at(address, 0) != address_start(op) {
        return false;
    }
    if word_at(address, size - 4) != address_end(op) {
        return false;
    }
    if size <= 8 {
        return true;
    }
    word_at(address, 4) == address_middle(op)
}
