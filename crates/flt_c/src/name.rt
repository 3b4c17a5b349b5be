//! Which files are C, by their names.

ghost use Rattle.std.specs.Prelude.{◌≡◌};
ghost use Rattle.flt_c.specs.Names as spec;

/// Whether a file is one of C alone, or a header, by the ending of its name.
fn is_plain_c_file(name: &[u8]) -> bool
    ensures { result ≡ spec.is_plain_c_file name.now }
{
    name.ends_with(b".c") || name.ends_with(b".h")
}

/// Whether a file is C++.
fn is_cpp_file(name: &[u8]) -> bool
    ensures { result ≡ spec.is_cpp_file name.now }
{
    name.ends_with(b".cc") || name.ends_with(b".cpp")
}

/// Whether a file is C or C++, by the ending of its name or of its URI.
pub fn is_c_file(name: &str) -> bool
    ensures { result ≡ spec.is_c_file name.now }
{
    let name = name.as_bytes();
    is_plain_c_file(name) || is_cpp_file(name)
}
