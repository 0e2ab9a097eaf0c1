// What a group is made of: the rules that generators are checked by, as definitions, and the functions that look for a broken one.
// Nothing here is a buyer's call: the crate group has those.
#![tactic(auto)]

pub mod inner;
pub mod orders;

ghost use Rattle.std.specs.Prelude.{◌≡◌, length};
ghost use Rattle.permutation.specs.Limits.{max_generators, target_places};

use pauli_word::MAX_SITES;

// The most generators of a group.
pub const MAX_GENERATORS: usize = 4;

// The largest group order.
pub const MAX_ORDER: usize = 1048576;

// The places for targets: MAX_SITES for each generator.
pub const TARGET_PLACES: usize = MAX_GENERATORS * MAX_SITES;

// A group whose tables are lent: generator g's targets stand at MAX_SITES * g of `targets`, and its order at g of `orders`.
#[derive(Clone, Copy)]
pub struct Lent<'a> {
    pub sites: usize,
    pub generators: usize,
    pub orders: &'a [u32; MAX_GENERATORS],
    pub targets: &'a [u16; TARGET_PLACES],
    ghost places: { length targets.now ≡ target_places },
    ghost declared_orders: { length orders.now ≡ max_generators },
}

// The most different cycle lengths of a permutation of MAX_SITES sites.
pub const MAX_LENGTHS: usize = 63;

// The largest order of one generator, as it is declared in 32 bits.
pub const MAX_DECLARED: u64 = 4294967295;

// The largest 64-bit number.
pub const MAX_WIDE: u64 = 18446744073709551615;
