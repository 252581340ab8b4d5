//! The identities of a Path, and whether one of them is the own.
ghost use Rattle.std.specs.Prelude.{◌≡◌, ◌≢◌, ◌↔◌, Err, IfOk};
ghost use Rattle.news_terms.specs.Path.{HasBadPath, path_identities};
ghost use Rattle.news_terms.specs.Path as terms;
ghost use Rattle.path_rules.specs.declared.rules.PathError.TheVariants.{Memory};

use crate::pieces::{first_piece, is_good, is_identity, is_posted};
use crate::words::{is_folding, is_same};
use std::alloc::{AllocError, Global};
use std::marker::Model;

/// Why a Path is refused.
#[derive(Clone, Copy, Debug)]
pub enum PathError {
    /// Memory ran out, which says nothing of the Path.
    Memory,
    /// With white space removed, an octet is outside 0x21 to 0x7E.
    BadPath,
}

impl From<AllocError> for PathError {
    ghost from_gives = { λ _ e. e ≡ Memory };

    fn from(_error: AllocError) -> PathError {
        PathError::Memory
    }
}

/// The identity of an agent as it stands in a Path, without white space (RFC 5537, section 3.2).
pub struct Identity {
    octets: Vec<u8>,
}

// Written out, so that no crate above proves anew how each part is let go.
impl Drop for Identity {
    fn drop(self) {
        let Identity { octets: _ } = self;
    }
}

impl Model for Identity {
    ghost use Rattle.std.specs.Prelude.{ℕ, List};

    ghost Value = { List ℕ };

    ghost view = { λ identity. identity.octets.items };
}

impl Identity {
    /// The octets of the identity.
    pub fn as_bytes(&self) -> &[u8]
        ensures { result.now ≡ self.now }
    {
        &self.octets
    }
}

/// The identities of a Path's content, from the left: the pieces before the tail-entry, up to the
/// first that says `.POSTED`, without those that are no identity (RFC 5537, section 3.2;
/// docs/FORMATS.md, Path).
pub fn identities(alloc: Global, path: &[u8]) -> Result<Vec<Identity>, PathError>
    ensures bad { (result ≡ Err PathError.BadPath) ↔ HasBadPath path.now }
    ensures identities { IfOk result (λ list. list.items ≡ path_identities path.now) }
{
    if !is_good(path) {
        return Err(PathError::BadPath);
    }
    let list = listed_identities(alloc, path)?;
    Ok(list)
}

/// The identities of a Path, whatever its octets.
fn listed_identities(alloc: Global, path: &[u8]) -> Result<Vec<Identity>, AllocError>
    ensures { IfOk result (λ list. list.items ≡ path_identities path.now) }
{
    let mut list = Vec::new(alloc);
    let mut rest = path;
    while let Some(cut) = first_piece(rest) {
        if is_posted(cut.piece) {
            break;
        }
        if is_identity(cut.piece) {
            list.push(identity_of(alloc, cut.piece)?)?;
        }
        rest = cut.rest;
    }
    Ok(list)
}

/// The octets of a piece without white space, as an identity.
fn identity_of(alloc: Global, piece: &[u8]) -> Result<Identity, AllocError>
    ensures { IfOk result (λ identity. identity ≡ terms.path_octets piece.now) }
{
    let mut octets = Vec::new(alloc);
    for octet in piece {
        if !is_folding(*octet) {
            octets.push(*octet)?;
        }
    }
    Ok(Identity { octets })
}

/// Whether the own identity is among the identities of a Path's content, without regard to ASCII
/// case: the article has been here (RFC 5537, section 3.6). As tail-entry, or behind a piece that
/// says `.POSTED`, it is none of them.
pub fn loops(path: &[u8], own: &[u8]) -> Result<bool, PathError>
    ensures bad { (result ≡ Err PathError.BadPath) ↔ HasBadPath path.now }
    ensures found { IfOk result (λ found. found ≡ terms.has_identity own.now path.now) }
    ensures no_memory { result ≢ Err PathError.Memory }
{
    if !is_good(path) {
        return Err(PathError::BadPath);
    }
    Ok(has_identity(path, own))
}

/// Whether the identity is among the identities of a Path's content, without regard to ASCII case,
/// whatever the octets of the Path (RFC 5537, section 3.6). It takes no memory.
pub fn has_identity(path: &[u8], own: &[u8]) -> bool
    ensures { result ≡ terms.has_identity own.now path.now }
{
    let mut rest = path;
    while let Some(cut) = first_piece(rest) {
        if is_posted(cut.piece) {
            return false;
        }
        if is_identity(cut.piece) && is_same(cut.piece, own) {
            return true;
        }
        rest = cut.rest;
    }
    false
}
