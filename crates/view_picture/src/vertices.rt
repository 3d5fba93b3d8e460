//! The views of a request in the tree that has their places.
use crate::audience::Audience;
use crate::disclosure::Disclosure;
use crate::line::LineKind;
use crate::sheet::Sheet;
use crate::spot::Spot;
use crate::view_box::BoxKind;
use crate::views::{put_roles, put_view};
use crate::words::{blind_text, hash_line};
use blind_tree::{Leaf, Vertex, VertexList};
use ledger_terms::{Hash, Path};
use std::alloc::AllocError;

/// Puts the views of vertices one below the other: a view that an envelope opens with its actions, and any other with hashes in the place of what
/// isn't shown. `above` is where the list stands.
pub(crate) fn put_vertices(
    sheet: &mut Sheet,
    audience: &Audience<'_>,
    disclosure: &Disclosure,
    above: &Spot,
    vertices: &VertexList,
) -> Result<(), AllocError> {
    let mut at: u16 = 0;
    for vertex in vertices.as_slice() {
        let spot = above.below(at, above.span, &above.told)?;
        at = at.saturating_add(1);
        if let Some(view) = disclosure.view_at(&spot.path) {
            put_view(sheet, audience, &spot, view)?;
            continue;
        }
        match vertex {
            Vertex::Blind(hash) => put_hash_box(sheet, &spot, hash)?,
            Vertex::Inner {
                informees,
                contents,
                subviews,
            } => {
                let top = sheet.begin_box();
                put_blind_head(sheet, audience, disclosure, &spot, informees)?;
                put_leaf(sheet, &spot, "contents: hash ", contents)?;
                let inside = spot.inside(disclosure.informees_at(&spot.path))?;
                put_vertices(sheet, audience, disclosure, &inside, subviews)?;
                sheet.end_box(spot.span, top, kind_at(disclosure, &spot.path))?;
            }
        }
    }
    Ok(())
}

/// How the box of a view looks that isn't shown.
fn kind_at(disclosure: &Disclosure, path: &Path) -> BoxKind {
    if disclosure.is_withheld(path) {
        BoxKind::Withheld
    } else {
        BoxKind::Blinded
    }
}

/// Puts the box of a view of which the hash alone is shown.
fn put_hash_box(sheet: &mut Sheet, spot: &Spot, hash: &Hash) -> Result<(), AllocError> {
    let top = sheet.begin_box();
    let inside = spot.span.inside();
    let text = blind_text(sheet.alloc, &spot.path, ", blinded")?;
    sheet.put_line(LineKind::View, inside, text)?;
    let text = hash_line(sheet.alloc, "hash ", hash)?;
    sheet.put_line(LineKind::Blinded, inside, text)?;
    sheet.end_box(spot.span, top, BoxKind::Blinded)
}

/// Puts which view it is whose contents aren't shown, with its informees and confirmers where they are disclosed.
fn put_blind_head(
    sheet: &mut Sheet,
    audience: &Audience<'_>,
    disclosure: &Disclosure,
    spot: &Spot,
    informees: &Leaf,
) -> Result<(), AllocError> {
    if let Some((informees, confirmers)) = disclosure.roles_at(&spot.path) {
        return put_roles(sheet, audience, spot, informees, confirmers);
    }
    let inside = spot.span.inside();
    if disclosure.is_withheld(&spot.path) {
        let text = blind_text(sheet.alloc, &spot.path, ", withheld")?;
        return sheet.put_line(LineKind::Withheld, inside, text);
    }
    let text = blind_text(sheet.alloc, &spot.path, ", blinded")?;
    sheet.put_line(LineKind::View, inside, text)?;
    put_leaf(sheet, spot, "informees: hash ", informees)
}

/// Puts the hash of a leaf that isn't shown.
fn put_leaf(sheet: &mut Sheet, spot: &Spot, what: &str, leaf: &Leaf) -> Result<(), AllocError> {
    match leaf {
        Leaf::Blind(hash) => {
            let text = hash_line(sheet.alloc, what, hash)?;
            sheet.put_line(LineKind::Blinded, spot.span.inside(), text)
        }
        Leaf::Plain { .. } => Ok(()),
    }
}
