// What holds of generator codes themselves.
ghost use Rattle.std.specs.Prelude.{ℕ, List};
ghost use Rattle.algebra.specs.Field.{Meaning};
ghost use Rattle.code.specs.Rule.{ListingRule};
ghost use Rattle.generator.specs.Ring.{RingLaws};
ghost use Rattle.generator.specs.Generator.{gen_meaning, Table};

// Over every ring, the code of every table keeps the listing rule. The contract is the theorem; the answer is of no use.
pub fn generator_stands() -> u8
    ensures { (F : Meaning) → RingLaws F → (g : List ℕ) (n k : ℕ) → Table F g n k → ListingRule (gen_meaning F g n k) }
{
    0
}
