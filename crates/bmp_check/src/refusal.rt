//! The first comparison of a check that fails, and its line.
ghost use Rattle.std.specs.Prelude.{◌≡◌, ◌++◌, ◌∷◌, IfOk, OnOk};
ghost use Rattle.std.specs.Fmt.{decimal};
ghost use Rattle.bmp_check.specs.Refusals.{refusal_text};

use bmp_cover::Kind;
use bmp_text::push_number;
use std::alloc::{AllocError, Global};

/// The first comparison that fails: where it stands, and the two numbers, which differ.
#[derive(Clone, Copy, Debug, PartialEq, Eq)]
pub struct Refusal {
    pub vertex: u32,
    pub degree: u32,
    pub kind: Kind,
    pub index: u64,
    pub place: u64,
    pub left: u64,
    pub right: u64,
}

/// What a check answers when it doesn't accept.
#[derive(Clone, Copy, Debug, PartialEq, Eq)]
pub enum CheckError {
    /// A comparison fails; this is the first.
    Refused(Refusal),
    /// Memory was wanting.
    Memory,
}

impl From<AllocError> for CheckError {
    ghost use Rattle.bmp_check.specs.declared.refusal.CheckError.TheVariants.{Memory};

    ghost from_gives = { λ _ e. e ≡ Memory };

    fn from(_: AllocError) -> Self {
        CheckError::Memory
    }
}

impl From<Refusal> for CheckError {
    ghost use Rattle.bmp_check.specs.declared.refusal.CheckError.TheVariants.{Refused};

    ghost from_gives = { λ r e. e ≡ Refused r };

    fn from(refusal: Refusal) -> Self {
        CheckError::Refused(refusal)
    }
}

// A name and a number, each behind a space.
fn push_named(out: &mut Vec<u8>, name: &[u8], n: u64) -> Result<(), AllocError>
    ensures { OnOk result (out.new.items ≡ out.old.items ++ (32 ∷ name.now ++ (32 ∷ decimal n))) }
{
    out.push(b' ')?;
    out.extend_from_slice(name)?;
    push_number(out, n)
}

/// The line of a refusal: `refused vertex X degree D kind K index I place P left L right R`.
pub fn refusal_line(alloc: Global, r: &Refusal) -> Result<Vec<u8>, AllocError>
    ensures { IfOk result (λ v. v.items ≡ refusal_text r.now) }
{
    let mut out = Vec::new(alloc);
    out.extend_from_slice(b"refused")?;
    push_named(&mut out, b"vertex", u64::from(r.vertex))?;
    push_named(&mut out, b"degree", u64::from(r.degree))?;
    out.extend_from_slice(b" kind ")?;
    out.extend_from_slice(r.kind.name().as_bytes())?;
    push_named(&mut out, b"index", r.index)?;
    push_named(&mut out, b"place", r.place)?;
    push_named(&mut out, b"left", r.left)?;
    push_named(&mut out, b"right", r.right)?;
    out.push(b'\n')?;
    Ok(out)
}
