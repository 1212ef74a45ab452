//! Which partition an address belongs to.
ghost use Rattle.std.specs.Prelude.{◌≡◌, ◌≤◌, ◌<◌, ◌*◌, ◌+◌, ◌%◌, ◌^◌, bit_xor};
ghost use Rattle.proto_wire.specs.Varint.{groups_of, varint};
ghost use Rattle.proto_wire.specs.Message.{spelled_bytes};
ghost use Rattle.address_routing.specs.Partitions.{fnv_1a, key_group, partition_of, prime};

use proto_wire::Text;
use typed_values::Address;

/// How many groups there are.
const GROUPS: u32 = 128;

const OFFSET_BASIS: u64 = 14_695_981_039_346_656_037;

const PRIME: u64 = 1_099_511_628_211;

/// The partition of an address, of so many: 1 to 16. Neighbouring groups of addresses are in one partition.
pub fn partition_of(address: &Address, partitions: u32) -> u32
    requires some { 1 ≤ partitions }
    requires most { partitions ≤ 16 }
    ensures value { result ≡ partition_of address.now partitions }
    ensures inside { result < partitions }
{
    key_group(address) * partitions / GROUPS
}

/// The group of an address, of 128: the FNV-1a hash, with 64 bits, of the address' canonical spelling, modulo 128.
/// Takes no memory.
#[tactic(auto, unfolding(crate::specs::Partitions::key_group))]
pub fn key_group(address: &Address) -> u32
    ensures value { result ≡ key_group address.now }
    ensures inside { result < 128 }
{
    let hash = with_text(OFFSET_BASIS, 1, &address.kind.namespace);
    let hash = with_text(hash, 2, &address.kind.name);
    let hash = with_text(hash, 3, &address.id);
    (hash % u64::from(GROUPS)) as u32
}

/// The hash behind a field with a text, which is not spelled where it is empty.
#[tactic(auto, unfolding(proto_wire::specs::Message::spelled_bytes))]
fn with_text(hash: u64, field: u64, text: &Text) -> u64
    requires { field < 16 }
    ensures { result ≡ fnv_1a hash (spelled_bytes field text.now) }
{
    if text.is_empty() {
        return hash;
    }
    let hash = with_varint(hash, 8 * field + 2);
    let hash = with_varint(hash, text.len() as u64);
    with_bytes(hash, text.as_bytes())
}

fn with_bytes(hash: u64, bytes: &[u8]) -> u64
    ensures { result ≡ fnv_1a hash bytes.now }
{
    let mut hash = hash;
    for byte in bytes {
        hash = with_byte(hash, *byte);
    }
    hash
}

#[tactic(auto, unfolding(proto_wire::specs::Varint::varint))]
fn with_varint(hash: u64, number: u64) -> u64
    ensures { result ≡ fnv_1a hash (varint number) }
{
    with_groups(hash, 9, number)
}

/// The hash behind the groups of a number, of which there are `more` beside the last at most.
#[tactic(auto, unfolding(proto_wire::specs::Varint::groups_of))]
fn with_groups(hash: u64, more: u32, number: u64) -> u64
    ensures { result ≡ fnv_1a hash (groups_of more number) }
{
    if more == 0 {
        return with_byte(hash, (number % 128) as u8);
    }
    if number < 128 {
        return with_byte(hash, number as u8);
    }
    let hash = with_byte(hash, (number % 128 + 128) as u8);
    with_groups(hash, more - 1, number / 128)
}

fn with_byte(hash: u64, byte: u8) -> u64
    ensures { result ≡ bit_xor hash byte * prime % 2 ^ 64 }
{
    (hash ^ u64::from(byte)).wrapping_mul(PRIME)
}
