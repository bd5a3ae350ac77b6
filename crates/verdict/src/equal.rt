// Whether what came is what was expected.
ghost use Rattle.std.specs.Prelude.{◌≡◌};
ghost use Rattle.verdict.specs.Equal.{same, judged_by};

// What is said of an example, a case or a vector. Both are answers, and neither is a lack or a refusal; `judged_by` of specs/ has them by name.
#[derive(Clone, Copy)]
pub enum Verdict {
    Equal,
    Differs,
}

// Of two numbers, of two strings of bytes whatever their lengths, of two digests: of any two that can be compared.
pub fn judged<T: PartialEq>(expected: &T, came: &T) -> Verdict
    ensures { result ≡ judged_by (T.eq expected.now came.now) }
{
    if expected == came {
        Verdict::Equal
    } else {
        Verdict::Differs
    }
}

// Whether two digests are one.
pub fn same_digest(a: &[u8; 32], b: &[u8; 32]) -> bool
    ensures { result ≡ same a.now b.now }
{
    a == b
}
