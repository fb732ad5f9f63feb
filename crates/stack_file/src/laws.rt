// Laws over the definitions. A function without a result does nothing: its contract is the law.
ghost use Rattle.stack_file.specs.Laws.{WrittenIsReadAgain, ReadIsBuilt};

/// What is written of steps that were read is read as the same steps.
pub fn written_steps_are_read_again()
    ensures { WrittenIsReadAgain }
{}

/// Of steps that were read, want of memory is all that can keep a stack from being built.
pub fn what_is_read_is_built()
    ensures { ReadIsBuilt }
{}
