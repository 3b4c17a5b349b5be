//! The kinds of warnings by name, and those that a caller leaves out.

ghost use Rattle.std.specs.Prelude.{◌≡◌};
ghost use Rattle.flt_explain_warnings.specs.Kinds as spec;

use crate::warning::Kind;

/// The kinds that a caller leaves out.
#[derive(Clone, Copy)]
pub struct AllowedKinds {
    pub w00: bool,
    pub w01: bool,
    pub w02: bool,
    pub w03: bool,
    pub w04: bool,
    pub w05: bool,
    pub w06: bool,
    pub w07: bool,
}

impl AllowedKinds {
    /// No kind is left out.
    pub fn none() -> AllowedKinds
        ensures { result ≡ spec.none_allowed }
    {
        AllowedKinds {
            w00: false,
            w01: false,
            w02: false,
            w03: false,
            w04: false,
            w05: false,
            w06: false,
            w07: false,
        }
    }

    /// The same kinds, and this one.
    pub fn with(self, kind: Kind) -> AllowedKinds
        ensures { result ≡ spec.with_kind self kind }
    {
        let mut allowed = self;
        match kind {
            Kind::W00 => allowed.w00 = true,
            Kind::W01 => allowed.w01 = true,
            Kind::W02 => allowed.w02 = true,
            Kind::W03 => allowed.w03 = true,
            Kind::W04 => allowed.w04 = true,
            Kind::W05 => allowed.w05 = true,
            Kind::W06 => allowed.w06 = true,
            Kind::W07 => allowed.w07 = true,
        }
        allowed
    }

    /// Whether a kind is left out.
    pub fn allows(self, kind: Kind) -> bool
        ensures { result ≡ spec.allows self kind }
    {
        match kind {
            Kind::W00 => self.w00,
            Kind::W01 => self.w01,
            Kind::W02 => self.w02,
            Kind::W03 => self.w03,
            Kind::W04 => self.w04,
            Kind::W05 => self.w05,
            Kind::W06 => self.w06,
            Kind::W07 => self.w07,
        }
    }
}

impl Kind {
    pub fn name(self) -> &'static str
        ensures { result.now ≡ spec.kind_name self }
    {
        match self {
            Kind::W00 => "W00",
            Kind::W01 => "W01",
            Kind::W02 => "W02",
            Kind::W03 => "W03",
            Kind::W04 => "W04",
            Kind::W05 => "W05",
            Kind::W06 => "W06",
            Kind::W07 => "W07",
        }
    }
}

/// The kind of a name, `W00` to `W07`.
pub fn kind_named(name: &[u8]) -> Option<Kind>
    ensures { result ≡ spec.kind_named name.now }
{
    match name {
        b"W00" => Some(Kind::W00),
        b"W01" => Some(Kind::W01),
        b"W02" => Some(Kind::W02),
        b"W03" => Some(Kind::W03),
        b"W04" => Some(Kind::W04),
        b"W05" => Some(Kind::W05),
        b"W06" => Some(Kind::W06),
        b"W07" => Some(Kind::W07),
        _ => None,
    }
}
