ghost use Rattle.std.specs.Prelude.{◌≡◌};
ghost use Rattle.cs_args.specs.Version.{version_text};

/// The program's name and its version, in one line.
pub fn version_text() -> &'static str
    ensures { result.now ≡ version_text }
{
    "cronsafe 0.1.0\n"
}
