// The usage.
ghost use Rattle.std.specs.Prelude.{◌≡◌};
ghost use Rattle.bolt_tool.specs.Lines.{usage_line};

/// The line for arguments that are no command.
pub fn usage() -> &'static [u8]
    ensures { result.now ≡ usage_line }
{
    b"usage: rewrite IN PROFILE OUT MAP, map IN PROFILE, run [--symbols] [--steps N] FILE [WORDS], \
      lookup FILE ADDR, sample N OUT PROFILE, record [--steps N] FILE OUT [WORDS], \
      repair IN PROFILE OUT, verify IN OUT MAP, frames FILE ADDR\n"
}
