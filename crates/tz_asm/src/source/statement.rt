//! Statements.

ghost use Rattle.std.specs.Prelude.{◌≡◌, Err, IfErr, IfOk, Ok, option_map};
ghost use Rattle.tz_asm.specs.Statements.{directive_of, instructed, statement_of, statement_with, texted, texted_by, worded};
ghost use Rattle.tz_asm.specs.Views.{ending_view, statement_view, views};

use crate::code::{has_shape, width_of};
use crate::source::directive::{Directive, directed, directive_of, with_text};
use crate::source::number::Signed;
use tz_syntax::Token;
use tz_table::{Size, Width};

/// Why a line says nothing that can be built.
#[derive(Clone, Copy)]
pub enum LineError {
    /// It isn't a list of tokens.
    Token,
    /// Its statement doesn't begin with a mnemonic or a directive.
    Mnemonic,
    /// The operands don't have the shape that the mnemonic or the directive asks for, or the label is the
    /// name of a register.
    Operands,
}

/// A value that is written.
#[derive(Clone, Copy)]
pub enum Expression<'s> {
    /// A number.
    Number(Signed),
    /// The place of a label, and what is added to it.
    Label(&'s [u8], Signed),
}

#[derive(Clone, Copy)]
pub enum Statement<'t, 's> {
    /// No statement.
    Nothing,
    /// `.org`: what follows goes to this place.
    Org(Signed),
    /// `.align`: zero bytes up to a multiple of this power of two.
    Align(u32),
    /// `.byte`, `.half` or `.word`: so many bytes, and their value.
    Data(Size, Expression<'s>),
    /// `.equ`: the label that it defines, and its value.
    Equ(&'s [u8], Expression<'s>),
    /// `.space`: so many zero bytes.
    Space(u32),
    /// `.ascii` or `.asciz`: the bytes of a text, and whether a zero byte stands behind them.
    Text(&'t [u8], bool),
    /// An instruction of this width: its mnemonic, and its operands, which have the shape of a text.
    Instruction(Width, &'s [u8], &'t [Token<'s>]),
}

/// What stands behind the tokens of a line.
#[derive(Clone, Copy)]
pub enum Ending<'t> {
    /// Nothing.
    Tokens,
    /// A text of these bytes.
    Text(&'t [u8]),
    /// A text, and more tokens.
    More,
}

/// The instruction with a mnemonic and operands.
#[tactic(auto, unfolding(crate::specs::Statements::instructed))]
fn instructed<'t, 's>(
    mnemonic: &'s [u8],
    operands: &'t [Token<'s>],
) -> Result<Statement<'t, 's>, LineError>
    ensures ok { IfOk result (λ s. instructed mnemonic.now (views operands.now) ≡ Ok (statement_view s)) }
    ensures err { IfErr result (λ e. instructed mnemonic.now (views operands.now) ≡ Err e) }
{
    let Some(width) = width_of(mnemonic) else {
        return Err(LineError::Mnemonic);
    };
    if has_shape(mnemonic, operands) {
        Ok(Statement::Instruction(width, mnemonic, operands))
    } else {
        Err(LineError::Operands)
    }
}

/// The statement that begins with a word.
#[tactic(auto, unfolding(crate::specs::Statements::worded))]
fn worded<'t, 's>(word: &'s [u8], operands: &'t [Token<'s>]) -> Result<Statement<'t, 's>, LineError>
    ensures ok { IfOk result (λ s. worded word.now (views operands.now) ≡ Ok (statement_view s)) }
    ensures err { IfErr result (λ e. worded word.now (views operands.now) ≡ Err e) }
{
    match directive_of(word) {
        Some(directive) => match directed(directive, operands) {
            Some(statement) => Ok(statement),
            None => Err(LineError::Operands),
        },
        None => instructed(word, operands),
    }
}

/// The statement that tokens are: none, a directive or an instruction.
#[tactic(auto, unfolding(crate::specs::Statements::statement_of))]
fn statement_of<'t, 's>(tokens: &'t [Token<'s>]) -> Result<Statement<'t, 's>, LineError>
    ensures ok { IfOk result (λ s. statement_of (views tokens.now) ≡ Ok (statement_view s)) }
    ensures err { IfErr result (λ e. statement_of (views tokens.now) ≡ Err e) }
{
    match tokens {
        [] => Ok(Statement::Nothing),
        [Token::Word(word), operands @ ..] => worded(word, operands),
        _ => Err(LineError::Mnemonic),
    }
}

/// The statement of a word with a text among its operands, which is one where nothing stands behind it. Only `.ascii` and
/// `.asciz` have texts.
fn texted_by<'t, 's>(
    word: &[u8],
    operands: &[Token<'s>],
    text: Option<&'t [u8]>,
) -> Result<Statement<'t, 's>, LineError>
    ensures ok { IfOk result (λ s. texted_by (directive_of word.now) (views operands.now)
        (option_map (λ bytes. bytes.now) text.entry) ≡ Ok (statement_view s)) }
    ensures err { IfErr result (λ e. texted_by (directive_of word.now) (views operands.now)
        (option_map (λ bytes. bytes.now) text.entry) ≡ Err e) }
{
    match directive_of(word) {
        Some(Directive::Text(ends)) => match with_text(Directive::Text(ends), operands, text) {
            Some(statement) => Ok(statement),
            None => Err(LineError::Operands),
        },
        _ => Err(LineError::Token),
    }
}

/// The statement that tokens and a text are.
#[tactic(auto, unfolding(crate::specs::Statements::texted))]
fn texted<'t, 's>(
    tokens: &[Token<'s>],
    text: Option<&'t [u8]>,
) -> Result<Statement<'t, 's>, LineError>
    ensures ok { IfOk result (λ s. texted (views tokens.now) (option_map (λ bytes. bytes.now) text.entry)
        ≡ Ok (statement_view s)) }
    ensures err { IfErr result (λ e. texted (views tokens.now) (option_map (λ bytes. bytes.now) text.entry) ≡ Err e) }
{
    match tokens {
        [Token::Word(word), operands @ ..] => texted_by(word, operands, text),
        _ => Err(LineError::Token),
    }
}

/// The statement that tokens are, with what the line ends with.
pub fn statement_with<'t, 's>(
    tokens: &'t [Token<'s>],
    ending: Ending<'t>,
) -> Result<Statement<'t, 's>, LineError>
    ensures ok { IfOk result (λ s. statement_with (views tokens.now) (ending_view ending.entry)
        ≡ Ok (statement_view s)) }
    ensures err { IfErr result (λ e. statement_with (views tokens.now) (ending_view ending.entry)
        ≡ Err e) }
{
    match ending {
        Ending::Tokens => statement_of(tokens),
        Ending::Text(bytes) => texted(tokens, Some(bytes)),
        Ending::More => texted(tokens, None),
    }
}
