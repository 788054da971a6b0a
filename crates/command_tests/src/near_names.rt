// The names that are near that of `find`, on a made file of a hundred rows.
use cipher_profile::{LineForm, read_key};
use command_runs::served::{KEY, OTHER_KEY, disk_with, made};
use edge_memory::{MemEntropy, MemSource, SilentDisk};
use schema_names::{NearName, SchemaKind};
use sqlcipher_tool::near_names;
use std::alloc::{AllocError, Global};
use std::test::Fail;

/// A name of the schema: of what, whether that has a tree, and its text.
type Told<'a> = (SchemaKind, bool, &'a str);

const ITEMS: Told<'static> = (SchemaKind::Table, true, "items");

const CODES: Told<'static> = (SchemaKind::Table, true, "codes");

const NAMES: Told<'static> = (SchemaKind::View, false, "names");

const INDEX: Told<'static> = (SchemaKind::Index, true, "items_name");

/// A name that is sought, and what is near it.
const ROWS: [(&str, Option<Told<'static>>); 10] = [
    ("items", Some(ITEMS)),
    ("Items", Some(ITEMS)),
    ("ITEMS", Some(ITEMS)),
    ("codes", Some(CODES)),
    ("cOdEs", Some(CODES)),
    ("names", Some(NAMES)),
    ("ITEMS_name", Some(INDEX)),
    ("item", None),
    ("items ", None),
    ("", None),
];

/// The first name that is near, by a key line; none also where the names can't be had.
fn first_near(
    alloc: Global,
    words: &[&str],
    line: &[u8],
    main: &[u8],
) -> Result<Option<NearName>, AllocError> {
    let mut input = MemSource::new(alloc, line, &[]).map_err(|_| AllocError)?;
    let mut entropy = MemEntropy::new(alloc, &[], &[]).map_err(|_| AllocError)?;
    let mut disk = SilentDisk {
        inner: disk_with(alloc, main)?,
    };
    let form = LineForm {
        hex: false,
        salted: false,
    };
    let Ok(secret) = read_key(form, &mut input) else {
        return Ok(None);
    };
    match near_names(alloc, words, &secret, &mut entropy, &mut disk) {
        Ok(mut list) => Ok(list.pop()),
        Err(_) => Ok(None),
    }
}

#[test]
fn lists_the_names_that_differ_by_case_alone(rt: HostRuntime) -> Result<(), Fail> {
    let alloc = rt.alloc();
    let main = made(alloc, "4", "100")?;
    for (name, told) in ROWS {
        let words = ["find", "4", name, "1", "1"];
        let near = first_near(alloc, &words, KEY, main.as_slice())?;
        match (near, told) {
            (None, None) => {}
            (Some(near), Some((kind, has_tree, text))) => {
                assert_eq!(rt; near.kind, kind, "{name}");
                assert_eq!(rt; near.has_tree, has_tree, "{name}");
                assert_eq!(rt; near.name.as_slice(), text.as_bytes(), "{name}");
            }
            _ => assert!(rt; false, "{name}"),
        }
    }
    Ok(())
}

#[test]
fn lists_none_for_other_words_and_for_another_key(rt: HostRuntime) -> Result<(), Fail> {
    let alloc = rt.alloc();
    let main = made(alloc, "4", "100")?;
    let find = ["find", "4", "items", "1", "1"];
    let other = first_near(alloc, &["export", "4"], KEY, main.as_slice())?;
    assert!(rt; other.is_none());
    assert!(rt; first_near(alloc, &find, OTHER_KEY, main.as_slice())?.is_none());
    assert!(rt; first_near(alloc, &find, KEY, &[])?.is_none());
    Ok(())
}
