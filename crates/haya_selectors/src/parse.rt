//! Reads a selector: a function for each form.
ghost use Rattle.std.specs.Prelude.{◌≡◌, ◌≤◌, ◌∷◌, IfErr, IfOk, None, length};
ghost use Rattle.haya_selectors.specs.declared.token.Sign.TheVariants.{Colon, ExclamationMark};
ghost use Rattle.haya_selectors.specs.declared.token.Sign.TheVariants.{LeftParen};
ghost use Rattle.haya_selectors.specs.Fault.{fault};
ghost use Rattle.haya_selectors.specs.Grammar.{ValueForm, FactorForm, AttributesForm, BindingForm};
ghost use Rattle.haya_selectors.specs.Grammar.{TermForm, ExprForm};
ghost use Rattle.haya_selectors.specs.Parser.{Gives, GivesNames, GivesRun, after_signs};
ghost use Rattle.haya_selectors.specs.Syntax.{Ancestrage, negations, syntax};
ghost use Rattle.haya_selectors.specs.Token.{BeginsNot, SignToken, Word};

use crate::token::{Sign, Tokens};
use crate::{Selector, SelectorError};
use haya_entry::{EntryType, UnknownType};
use haya_text::OutOfMemory;
use std::alloc::Global;
use std::str::FromStr;

// What a form was read as. What goes on behind the form takes it whole, with its fault, so that a
// function which each `(` goes through holds little else.
type Read = Result<Selector, SelectorError>;

// Terms with `>` between.
#[cycle(parser)]
pub(crate) fn expr(alloc: Global, tokens: &mut Tokens<'_>) -> Read
    ensures value { Gives ExprForm tokens.old tokens.new result }
    ensures shorter { length tokens.new ≤ length tokens.old }
{
    let first = term(alloc, tokens);
    chain(alloc, tokens, first)
}

// The terms behind the first, each after a `>`.
#[cycle(parser)]
#[inline(never)]
fn chain(alloc: Global, tokens: &mut Tokens<'_>, first: Read) -> Read
    ensures value { (ts : _) →
        Gives TermForm ts tokens.old first → Gives ExprForm ts tokens.new result }
    ensures shorter { length tokens.new ≤ length tokens.old }
{
    let mut left = first?;
    'chain: while tokens.eat_sign(Sign::Chevron) {
        let right = term(alloc, tokens)?;
        left = behind(alloc, left, right)?;
    }
    Ok(left)
}

// Bindings with `|` or `&` between.
#[cycle(parser)]
fn term(alloc: Global, tokens: &mut Tokens<'_>) -> Read
    ensures value { Gives TermForm tokens.old tokens.new result }
    ensures shorter { length tokens.new ≤ length tokens.old }
{
    let first = binding(alloc, tokens);
    runs(alloc, tokens, first)
}

// The bindings behind the first, each after a `|` or `&`.
#[cycle(parser)]
#[inline(never)]
fn runs(alloc: Global, tokens: &mut Tokens<'_>, first: Read) -> Read
    ensures value { (ts : _) →
        Gives BindingForm ts tokens.old first → Gives TermForm ts tokens.new result }
    ensures shorter { length tokens.new ≤ length tokens.old }
{
    let mut left = first?;
    'runs: loop {
        if tokens.eat_sign(Sign::Pipe) {
            left = Selector::Alt(run(alloc, tokens, left, Sign::Pipe)?);
        } else if tokens.eat_sign(Sign::Ampersand) {
            left = Selector::Multi(run(alloc, tokens, left, Sign::Ampersand)?);
        } else {
            return Ok(left);
        }
    }
}

// The members of a run of one sign, behind the first member and sign.
#[cycle(parser)]
fn run(
    alloc: Global,
    tokens: &mut Tokens<'_>,
    first: Selector,
    sign: Sign,
) -> Result<Vec<Selector>, SelectorError>
    ensures value { GivesRun sign (syntax first) tokens.old tokens.new result }
    ensures shorter { length tokens.new ≤ length tokens.old }
{
    let mut members = Vec::new(alloc);
    members.push(first)?;
    'members: loop {
        let member = binding(alloc, tokens)?;
        members.push(member)?;
        if !tokens.eat_sign(sign) {
            return Ok(members);
        }
    }
}

// Attributes, with a name and `:` before them or not.
#[cycle(parser)]
fn binding(alloc: Global, tokens: &mut Tokens<'_>) -> Read
    ensures value { Gives BindingForm tokens.old tokens.new result }
    ensures shorter { length tokens.new ≤ length tokens.old }
{
    let Some(name) = tokens.eat_name() else {
        return attributes(alloc, tokens);
    };
    let inner = attributes(alloc, tokens);
    called(alloc, name, inner)
}

// Attributes, called by a name.
#[inline(never)]
fn called(alloc: Global, name: &str, inner: Read) -> Read
    ensures { (ts after : _) → Gives AttributesForm ts after inner →
        Gives BindingForm (Word name.now ∷ SignToken Colon ∷ ts) after result }
{
    let inner = inner?;
    let name = String::from_str(alloc, name)?;
    Ok(Selector::Binding(name, Box::new(alloc, inner)?))
}

// A factor, with a bracket list behind it or not.
#[cycle(parser)]
fn attributes(alloc: Global, tokens: &mut Tokens<'_>) -> Read
    ensures value { Gives AttributesForm tokens.old tokens.new result }
    ensures shorter { length tokens.new ≤ length tokens.old }
{
    let inner = factor(alloc, tokens);
    listed(alloc, tokens, inner)
}

// A factor that was read, with a bracket list behind it or not.
#[inline(never)]
fn listed(alloc: Global, tokens: &mut Tokens<'_>, inner: Read) -> Read
    ensures value { (ts : _) →
        Gives FactorForm ts tokens.old inner → Gives AttributesForm ts tokens.new result }
    ensures shorter { length tokens.new ≤ length tokens.old }
{
    let inner = inner?;
    if !tokens.eat_sign(Sign::LeftBracket) {
        return Ok(inner);
    }
    let list = names(alloc, tokens)?;
    Ok(Selector::Attr(Box::new(alloc, inner)?, list))
}

// A value, behind any number of `!`: they are counted, so that none of them costs a call.
#[cycle(parser)]
fn factor(alloc: Global, tokens: &mut Tokens<'_>) -> Read
    ensures value { Gives FactorForm tokens.old tokens.new result }
    ensures shorter { length tokens.new ≤ length tokens.old }
{
    let mut signs: usize = 0;
    'signs: while tokens.eat_sign(Sign::ExclamationMark) {
        signs = signs.checked_add(1).ok_or(OutOfMemory)?;
    }
    let inner = value(alloc, tokens);
    signed(alloc, signs, inner)
}

// A value, behind so many `!`.
#[inline(never)]
fn signed(alloc: Global, signs: usize, inner: Read) -> Read
    ensures { (ts after : _) → BeginsNot ExclamationMark ts → Gives ValueForm ts after inner →
        Gives FactorForm (after_signs signs ts) after result }
{
    negated(alloc, inner?, signs)
}

// The selector behind so many `!`.
fn negated(alloc: Global, inner: Selector, signs: usize) -> Read
    ensures value { IfOk result (λ s. syntax s ≡ negations signs (syntax inner)) }
    ensures fault { IfErr result (λ e. fault e ≡ None) }
{
    let mut whole = inner;
    let mut left = signs;
    'wraps: while left > 0 {
        whole = Selector::Neg(Box::new(alloc, whole)?);
        left -= 1;
    }
    Ok(whole)
}

// A selector in parentheses, `*` or a type.
#[cycle(parser)]
fn value(alloc: Global, tokens: &mut Tokens<'_>) -> Read
    ensures value { Gives ValueForm tokens.old tokens.new result }
    ensures shorter { length tokens.new ≤ length tokens.old }
{
    if !tokens.eat_sign(Sign::LeftParen) {
        return leaf(alloc, tokens);
    }
    let inner = expr(alloc, tokens);
    closed(tokens, inner)
}

// What was read behind a `(`, and the `)` behind it.
#[inline(never)]
fn closed(tokens: &mut Tokens<'_>, inner: Read) -> Read
    ensures value { (ts : _) → Gives ExprForm ts tokens.old inner →
        Gives ValueForm (SignToken LeftParen ∷ ts) tokens.new result }
    ensures shorter { length tokens.new ≤ length tokens.old }
{
    let inner = inner?;
    if !tokens.eat_sign(Sign::RightParen) {
        return Err(SelectorError::UnbalancedParens);
    }
    Ok(inner)
}

// `*` or a type.
#[inline(never)]
fn leaf(alloc: Global, tokens: &mut Tokens<'_>) -> Read
    ensures value { BeginsNot LeftParen tokens.old → Gives ValueForm tokens.old tokens.new result }
    ensures shorter { length tokens.new ≤ length tokens.old }
{
    if tokens.eat_sign(Sign::Star) {
        return Ok(Selector::Wildcard);
    }
    let Some(name) = tokens.eat_word() else {
        return Err(SelectorError::MissingValue);
    };
    entry_type(alloc, name)
}

// What `parent` picks behind what `child` picks.
#[inline(never)]
fn behind(alloc: Global, child: Selector, parent: Selector) -> Result<Selector, OutOfMemory>
    ensures { IfOk result (λ s. syntax s ≡ Ancestrage (syntax child) (syntax parent)) }
{
    let child = Box::new(alloc, child)?;
    Ok(Selector::Ancestrage(child, Box::new(alloc, parent)?))
}

// The type that an identifier names, in upper or lower case.
fn entry_type(alloc: Global, name: &str) -> Read
    ensures { (rest : _) → Gives ValueForm (Word name.now ∷ rest) rest result }
{
    let lower = name.to_ascii_lowercase(alloc)?;
    match EntryType::from_str(&lower) {
        Ok(kind) => Ok(Selector::Entry(kind)),
        Err(UnknownType) => Err(SelectorError::UnknownEntryType(lower)),
    }
}

// The names of a bracket list, behind its `[`.
fn names(alloc: Global, tokens: &mut Tokens<'_>) -> Result<Vec<String>, SelectorError>
    ensures value { GivesNames tokens.old tokens.new result }
    ensures shorter { length tokens.new ≤ length tokens.old }
{
    let mut list = Vec::new(alloc);
    'list: loop {
        if tokens.eat_sign(Sign::RightBracket) {
            return Ok(list);
        }
        let Some(name) = tokens.eat_word() else {
            return Err(SelectorError::MalformedAttribute);
        };
        list.push(String::from_str(alloc, name)?)?;
        if tokens.eat_sign(Sign::RightBracket) {
            return Ok(list);
        }
        if !tokens.eat_sign(Sign::Comma) {
            return Err(SelectorError::MissingComma);
        }
    }
}
