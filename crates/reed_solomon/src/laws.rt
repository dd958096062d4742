// What holds of the definitions themselves.
ghost use Rattle.std.specs.Prelude.{ℕ, List};
ghost use Rattle.algebra.specs.Field.{Meaning, Laws};
ghost use Rattle.counting.specs.Counting.{limits};
ghost use Rattle.code.specs.Rule.{ListingRule};
ghost use Rattle.reed_solomon.specs.ReedSolomon.{rs_at, Bounds, Points};
ghost use Rattle.reed_solomon.specs.Few.{FewListed};

// Over every lawful field, at any different points, the code keeps the listing rule. The contract is the theorem; the answer is of no use.
pub fn reed_solomon_stands() -> u8
    ensures { (F : Meaning) → Laws F → (n k : ℕ) → Bounds n k → (points : List ℕ) → Points F n points → ListingRule (rs_at limits F n points k) }
{
    0
}

// In reach, a list never passes fifteen messages. The contract is the theorem; the answer is of no use.
pub fn lists_are_few() -> u8
    ensures { FewListed }
{
    0
}
