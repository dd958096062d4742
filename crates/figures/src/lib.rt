// The figures that are proved of the definitions, jointly, and outside vectors that are run.

#![tactic(auto)]

ghost use Rattle.std.specs.Prelude.{◌≡◌, [], ◌∷◌, map};
ghost use Rattle.algebra.specs.Prime.{prime};
ghost use Rattle.algebra.specs.Binary.{binary};
ghost use Rattle.code.specs.Messages.{number};
ghost use Rattle.code.specs.Meaning.{listing, beyond};
ghost use Rattle.counting.specs.Counting.{limits};
ghost use Rattle.reed_solomon.specs.Least.{least_reach};
ghost use Rattle.figures.specs.Examples.{slab_inner, slab_block, five, five_sheet};

#[cfg(test)]
mod field_vectors;

// The worked figures hold of the definitions. The contract is the theorem; the answer is of no use.
pub fn figures_hold() -> u8
    ensures product_over_16 { (binary 4).product 2 8 ≡ 3 }
    ensures product_over_256 { (binary 8).product 2 128 ≡ 29 }
    ensures inverse_over_11 { (prime 11).inverse 2 ≡ 6 }
    ensures slab_list { map (number 2) (listing slab_inner slab_block 6) ≡ 0 ∷ 12 ∷ 13 ∷ 14 ∷ [] }
    ensures slab_least { slab_inner.least ≡ 5 }
    ensures five_at_three { listing five five_sheet 3 ≡ (0 ∷ 0 ∷ []) ∷ (0 ∷ 1 ∷ []) ∷ [] }
    ensures five_at_four { listing five five_sheet 4 ≡ [] }
    ensures five_at_two { five.reach five_sheet 2 ≡ beyond 0 0 }
    ensures slab_outer_least { least_reach limits 15 4 ≡ 8 }
    ensures header_least { least_reach limits 10 3 ≡ 5 }
    ensures brine_inner_least { least_reach limits 8 2 ≡ 4 }
    ensures brine_outer_least { least_reach limits 24 4 ≡ 10 }
{
    0
}
