// Clearing the lent bytes that the sets stand in.
ghost use Rattle.std.specs.Prelude.{◌≡◌, length};
ghost use Rattle.steps.specs.Sets.{Clear};

// Clears all of the bytes.
pub fn wipe(work: &mut [u8])
    ensures { (length work.new ≡ length work.old) × Clear work.new }
{
    work.fill(0);
}
