//! The files of a store in ascending number, each with its path.
ghost use Rattle.std.specs.Prelude.{◌≡◌, map, IfOk, string_bytes};
ghost use Rattle.std.specs.Option.{option_map};
ghost use Rattle.std.specs.Ordering.{nat_cmp};
ghost use Rattle.std.specs.BTreeMap.{get};
ghost use Rattle.object.specs.Names.{units_of};
ghost use Rattle.inspect.specs.Listed.{row_fields, info_fields, listed};
ghost use Rattle.inspect.specs.Texts.{units_text};
ghost use Rattle.inspect.specs.Words.{path_text};

use crate::text::Shown;
use object::format::Format;
use object::protection::Protection;
use std::alloc::{AllocError, Global};
use std::collections::BTreeMap;
use store::info::FileInfo;
use store::read::ReadStore;
use store::walk::files_of;

/// A file as it is listed.
#[derive(Drop)]
pub struct Row {
    pub number: u32,
    pub format: Format,
    pub length: u32,
    pub protection: Protection,
    pub path: String,
}

/// The paths of the folders met so far, by their numbers.
type Folders = BTreeMap<u32, String>;

/// The path of a file: its folder's path, a slash and its name.
fn path_of(heap: Global, folders: &Folders, info: &FileInfo) -> Result<String, AllocError>
    ensures { IfOk result (λ path. string_bytes path ≡ path_text (option_map string_bytes (get nat_cmp folders.now info.now.parent)) (units_text (units_of info.now.name))) }
{
    let name = Shown(&info.name);
    match folders.get(&info.parent) {
        Some(folder) => format!(in heap; "{folder}/{name}"),
        None => name.to_string(heap),
    }
}

/// The row of a file. A folder's path is kept for the files in it.
fn row_of(
    heap: Global,
    folders: &mut Folders,
    number: u32,
    info: &FileInfo,
) -> Result<Row, AllocError>
    ensures { IfOk result (λ row. row_fields row ≡ info_fields number info.now) }
{
    let path = path_of(heap, folders, info)?;
    if info.format.is_folder() {
        folders.insert(number, path.clone()?)?;
    }
    Ok(Row {
        number,
        format: info.format,
        length: info.length,
        protection: info.protection,
        path,
    })
}

/// A row for each file of a store. A folder stands before what it holds, since its number is smaller.
#[tactic(auto, using(crate::proofs::Told::told_listed))]
pub fn rows_of<S: ReadStore>(heap: Global, store: &S) -> Result<Vec<Row>, AllocError>
    ensures { IfOk result (λ rows. map row_fields rows.items ≡ listed (S.contents store.now).files) }
{
    let mut rows = Vec::new(heap);
    let mut folders = BTreeMap::new(heap);
    for (number, info) in files_of(store) {
        rows.push(row_of(heap, &mut folders, number, &info)?)?;
    }
    Ok(rows)
}
