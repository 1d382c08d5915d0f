// What descriptors count for.
ghost use Rattle.std.specs.Prelude.{◌≡◌, pos, cond};
ghost use Rattle.std.specs.Ordering.{int_cmp};
ghost use Rattle.cip_digraph.specs.rules.Kinds.{KindR, KindS, key_or_zero, geometric_key, chirality_key, like_key};
ghost use Rattle.cip_digraph.specs.rules.Kinds.{small_key, capital_key};

use cip_mol::Descriptor;
use std::cmp::Ordering;

/// Rule 3: 2 for Z and 1 for E.
pub fn rule_3_value(descriptor: Option<Descriptor>) -> u8
    ensures { pos result ≡ key_or_zero geometric_key descriptor }
{
    match descriptor {
        Some(Descriptor::Z) => 2,
        Some(Descriptor::E) => 1,
        _ => 0,
    }
}

/// Rule 4a: 2 for chiral units and 1 for pseudoasymmetric ones.
pub fn rule_4a_value(descriptor: Option<Descriptor>) -> u8
    ensures { pos result ≡ key_or_zero chirality_key descriptor }
{
    match descriptor {
        None => 0,
        Some(descriptor) => match descriptor {
            Descriptor::R
            | Descriptor::S
            | Descriptor::M
            | Descriptor::P
            | Descriptor::SeqCis
            | Descriptor::SeqTrans => 2,
            Descriptor::SmallR | Descriptor::SmallS | Descriptor::SmallM | Descriptor::SmallP => 1,
            Descriptor::Z | Descriptor::E => 0,
        },
    }
}

/// Rule 4b: 1 for what is like the reference, which is kind S or kind R.
pub fn reference_value(descriptor: Option<Descriptor>, by_s: bool) -> u8
    ensures { pos result ≡ key_or_zero (like_key (cond by_s KindS KindR)) descriptor }
{
    match descriptor {
        Some(Descriptor::R | Descriptor::M | Descriptor::SeqCis) => { if by_s { 0 } else { 1 } }
        Some(Descriptor::S | Descriptor::P | Descriptor::SeqTrans) => { if by_s { 1 } else { 0 } }
        _ => 0,
    }
}

/// Rule 4c: 2 for r and 1 for s.
pub fn rule_4c_value(descriptor: Option<Descriptor>) -> u8
    ensures { pos result ≡ key_or_zero small_key descriptor }
{
    match descriptor {
        Some(Descriptor::SmallR | Descriptor::SmallM) => 2,
        Some(Descriptor::SmallS | Descriptor::SmallP) => 1,
        _ => 0,
    }
}

/// Rule 5: 2 for kind R and 1 for kind S, or turned.
pub fn rule_5_value(descriptor: Option<Descriptor>, r_first: bool) -> u8
    ensures { pos result ≡ key_or_zero (capital_key r_first) descriptor }
{
    match descriptor {
        Some(Descriptor::R | Descriptor::M | Descriptor::SeqCis) => { if r_first { 2 } else { 1 } }
        Some(Descriptor::S | Descriptor::P | Descriptor::SeqTrans) => {
            if r_first { 1 } else { 2 }
        }
        _ => 0,
    }
}

/// How two of these compare.
pub fn compare_values(a: u8, b: u8) -> Ordering
    ensures { result ≡ int_cmp (pos a) (pos b) }
{
    a.cmp(&b)
}
