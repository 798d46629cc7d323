//! SELECT.

ghost use Rattle.std.specs.Prelude.{◌≡◌};
ghost use Rattle.std.specs.List.{list_all, list_any};
ghost use Rattle.std.specs.Str.{bytes_eq};
ghost use Rattle.cj_model.specs.Sql.Grammar as grammar;
ghost use Rattle.cj_model.specs.Database.Tables as tables;
ghost use Rattle.cj_sql.specs.Proving.Cursor.{ReadsAs};
ghost use Rattle.cj_sql.specs.Proving.SelectReader as spec;

use crate::conditions::filter;
use crate::list::{Element, items};
use crate::terms::column;
use crate::tokens::Tokens;
use cj_lex::SqlError;
use cj_model::{
    ColRef, ITEM_LIMIT, Item, Items, KEY_LIMIT, Key, Keys, Keyword, ListOf, Name, Request, Select,
    Symbol, TABLE_LIMIT,
};
use std::alloc::Global;

/// Reads the rest of a COUNT item, after that word.
#[tactic(auto, unfolding(crate::specs::Proving::SelectReader::count_item))]
fn count(tokens: &mut Tokens) -> Result<Item, SqlError>
    ensures { ReadsAs spec.count_item tokens.old result tokens.new }
{
    tokens.expect_symbol(Symbol::Open)?;
    tokens.expect_symbol(Symbol::Star)?;
    tokens.expect_symbol(Symbol::Close)?;
    Ok(Item::Count)
}

/// Reads the rest of a SUM item, after that word.
#[tactic(auto, unfolding(crate::specs::Proving::SelectReader::sum))]
fn sum(tokens: &mut Tokens) -> Result<Item, SqlError>
    ensures { ReadsAs spec.sum tokens.old result tokens.new }
{
    tokens.expect_symbol(Symbol::Open)?;
    let column = column(tokens)?;
    tokens.expect_symbol(Symbol::Close)?;
    Ok(Item::Sum(column))
}

impl Element for Item {
    ghost use Rattle.cj_sql.specs.Proving.SelectReader.{item};

    ghost reader = { item };

    #[tactic(auto, unfolding(crate::specs::Proving::SelectReader::item))]
    fn read(_alloc: Global, tokens: &mut Tokens) -> Result<Item, SqlError> {
        if tokens.eat_word(Keyword::Count) {
            return count(tokens);
        }
        if tokens.eat_word(Keyword::Sum) {
            return sum(tokens);
        }
        let column = column(tokens)?;
        Ok(Item::Col(column))
    }
}

#[tactic(auto, unfolding(crate::specs::Proving::SelectReader::select_items))]
fn listed(alloc: Global, tokens: &mut Tokens) -> Result<Items, SqlError>
    ensures { ReadsAs spec.select_items tokens.old result tokens.new }
{
    if tokens.eat_symbol(Symbol::Star) {
        return Ok(Items::All);
    }
    let list = items::<Item>(alloc, tokens, ITEM_LIMIT)?;
    Ok(Items::Listed(list))
}

/// Reads the GROUP BY clause, if one is next.
#[tactic(auto, unfolding(crate::specs::Proving::SelectReader::group))]
fn group(tokens: &mut Tokens) -> Result<Option<ColRef>, SqlError>
    ensures { ReadsAs spec.group tokens.old result tokens.new }
{
    if !tokens.eat_word(Keyword::Group) {
        return Ok(None);
    }
    tokens.expect_word(Keyword::By)?;
    let column = column(tokens)?;
    Ok(Some(column))
}

/// Reads ASC or DESC, if one is next, and says whether the order descends.
#[tactic(auto, unfolding(crate::specs::Proving::SelectReader::direction))]
fn direction(tokens: &mut Tokens) -> Result<bool, SqlError>
    ensures { ReadsAs spec.direction tokens.old result tokens.new }
{
    if tokens.eat_word(Keyword::Desc) {
        return Ok(true);
    }
    tokens.eat_word(Keyword::Asc);
    Ok(false)
}

impl Element for Key {
    ghost use Rattle.cj_sql.specs.Proving.SelectReader.{key};

    ghost reader = { key };

    #[tactic(auto, unfolding(crate::specs::Proving::SelectReader::key))]
    fn read(_alloc: Global, tokens: &mut Tokens) -> Result<Key, SqlError> {
        let col = column(tokens)?;
        let desc = direction(tokens)?;
        Ok(Key { col, desc })
    }
}

/// Reads the ORDER BY clause, if one is next; no keys without one.
#[tactic(auto, unfolding(crate::specs::Proving::SelectReader::order))]
fn order(alloc: Global, tokens: &mut Tokens) -> Result<Keys, SqlError>
    ensures { ReadsAs spec.order tokens.old result tokens.new }
{
    if !tokens.eat_word(Keyword::Order) {
        return Ok(ListOf::new(alloc));
    }
    tokens.expect_word(Keyword::By)?;
    items::<Key>(alloc, tokens, KEY_LIMIT)
}

/// Reads the LIMIT clause, if one is next.
#[tactic(auto, unfolding(crate::specs::Proving::SelectReader::limit))]
fn limit(tokens: &mut Tokens) -> Result<Option<u64>, SqlError>
    ensures { ReadsAs spec.limit tokens.old result tokens.new }
{
    if !tokens.eat_word(Keyword::Limit) {
        return Ok(None);
    }
    let number = tokens.number()?;
    if number < 1 << 63 {
        Ok(Some(number))
    } else {
        Err(SqlError::Syntax)
    }
}

fn has_name(names: &[Name], name: &Name) -> bool
    ensures { result ≡ list_any (bytes_eq name.now) names.now }
{
    names.iter().any(|other| name.is(other))
}

fn is_distinct(mut names: &[Name]) -> bool
    ensures { result ≡ tables.is_distinct names.entry.now }
{
    while let [first, rest @ ..] = names {
        if has_name(rest, first) {
            return false;
        }
        names = rest;
    }
    true
}

fn is_column(item: &Item) -> bool
    ensures { result ≡ grammar.is_column item.now }
{
    matches!(item, Item::Col(_))
}

fn all_columns(list: &[Item]) -> bool
    ensures { result ≡ list_all grammar.is_column list.now }
{
    list.iter().all(|item| is_column(item))
}

/// Whether no item is COUNT or SUM.
fn are_columns(items: &Items) -> bool
    ensures { result ≡ grammar.are_columns items.now }
{
    match items {
        Items::All => true,
        Items::Listed(list) => all_columns(list.as_slice()),
    }
}

/// Whether the tables differ, and COUNT, SUM and GROUP BY appear only with one table.
fn is_allowed(items: &Items, tables: &[Name], group: &Option<ColRef>) -> bool
    ensures { result ≡ spec.is_allowed_select items.now tables.now group.now }
{
    is_distinct(tables) && (tables.len() == 1 || (are_columns(items) && group.is_none()))
}

/// Reads the rest of a SELECT, after that word.
#[tactic(auto, unfolding(crate::specs::Proving::SelectReader::select))]
pub fn select(alloc: Global, tokens: &mut Tokens) -> Result<Request, SqlError>
    ensures { ReadsAs spec.select tokens.old result tokens.new }
{
    let listed = listed(alloc, tokens)?;
    tokens.expect_word(Keyword::From)?;
    let tables = items::<Name>(alloc, tokens, TABLE_LIMIT)?;
    let cond = filter(alloc, tokens)?;
    let group = group(tokens)?;
    let order = order(alloc, tokens)?;
    let limit = limit(tokens)?;
    if !is_allowed(&listed, tables.as_slice(), &group) {
        return Err(SqlError::Syntax);
    }
    Ok(Request::Select(Select {
        items: listed,
        tables,
        cond,
        group,
        order,
        limit,
    }))
}
