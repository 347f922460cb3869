//! Reading trees, with no more room in their lists than these need: most objects of a dump have one
//! member, which `json` would give room for four. A short list grows by one item at a time, since what
//! is cut off a list when it is whole stays behind it as a piece that nothing fits.
ghost use Rattle.std.specs.Prelude.{◌≡◌, ◌<◌, ◌∷◌, [], ◌++◌, length, Some, None, IfOk, IfSome, MatchOption, OnOk};
ghost use Rattle.json.specs.Json.{items, members, value};
ghost use Rattle.json.specs.Value.{items_view as tree_items, members_view as tree_members, value_view};

use json::{Reader, Token, Value as Tree};
use par_base::Memory;
use std::alloc::Global;

/// So many items grow one at a time.
const SHORT: usize = 8;

/// Adds an item. A short list takes just the room of its items.
fn push_tight<T: Drop>(items: &mut Vec<T>, item: T) -> Result<(), Memory>
    ensures { OnOk result (items.new.items ≡ items.old.items ++ item ∷ []) }
{
    if items.len() < SHORT {
        items.reserve_exact(1)?;
    }
    items.push(item)?;
    Ok(())
}

/// The next value of the reader. Arrays and objects nest no deeper than this.
#[cycle(read)]
pub(crate) fn next_tree<'a>(
    alloc: Global,
    reader: &mut Reader<'a>,
    depth: usize,
) -> Result<Option<Tree<'a>>, Memory>
    ensures value { IfOk result (λ tree. MatchOption tree (value depth reader.old ≡ None)
        (λ t. value depth reader.old ≡ Some (value_view t, reader.new))) }
    ensures shorter { IfOk result (λ tree. IfSome tree
        (λ t. length reader.new < length reader.old)) }
{
    let Some(token) = reader.next() else {
        return Ok(None);
    };
    match token {
        Token::String(text) => Ok(Some(Tree::String(text))),
        Token::Number(text) => Ok(Some(Tree::Number(text))),
        Token::Bool(truth) => Ok(Some(Tree::Bool(truth))),
        Token::Null => Ok(Some(Tree::Null)),
        Token::EndObject | Token::EndArray | Token::Key(_) | Token::Bad => Ok(None),
        Token::BeginArray => {
            if depth == 0 {
                return Ok(None);
            }
            match read_items(alloc, reader, depth - 1)? {
                Some(items) => Ok(Some(Tree::Array(items))),
                None => Ok(None),
            }
        }
        Token::BeginObject => {
            if depth == 0 {
                return Ok(None);
            }
            match read_members(alloc, reader, depth - 1)? {
                Some(members) => Ok(Some(Tree::Object(members))),
                None => Ok(None),
            }
        }
    }
}

#[cycle(read)]
fn read_items<'a>(
    alloc: Global,
    reader: &mut Reader<'a>,
    depth: usize,
) -> Result<Option<Vec<Tree<'a>>>, Memory>
    ensures value { IfOk result (λ found. MatchOption found
        (items (value depth) (length reader.old) reader.old ≡ None)
        (λ v. items (value depth) (length reader.old) reader.old
        ≡ Some (tree_items v.items, reader.new))) }
    ensures shorter { IfOk result (λ found. IfSome found
        (λ v. length reader.new < length reader.old)) }
{
    let mut found = Vec::new(alloc);
    while !reader.take_end_array() {
        let Some(item) = next_tree(alloc, reader, depth)? else {
            return Ok(None);
        };
        push_tight(&mut found, item)?;
    }
    found.shrink_to_fit();
    Ok(Some(found))
}

#[cycle(read)]
fn read_members<'a>(
    alloc: Global,
    reader: &mut Reader<'a>,
    depth: usize,
) -> Result<Option<Vec<(&'a str, Tree<'a>)>>, Memory>
    ensures value { IfOk result (λ found. MatchOption found
        (members (value depth) (length reader.old) reader.old ≡ None)
        (λ v. members (value depth) (length reader.old) reader.old
        ≡ Some (tree_members v.items, reader.new))) }
    ensures shorter { IfOk result (λ found. IfSome found
        (λ v. length reader.new < length reader.old)) }
{
    let mut found = Vec::with_capacity(alloc, 1)?;
    loop {
        match reader.next_key() {
            Ok(Some(key)) => {
                let Some(member) = next_tree(alloc, reader, depth)? else {
                    return Ok(None);
                };
                found.push((key, member))?;
            }
            Ok(None) => return Ok(Some(found)),
            Err(_) => return Ok(None),
        }
    }
}
