//! From the bytes of a text to its module.
ghost use Rattle.std.specs.Prelude.{◌≡◌, ◌≤◌, IfOk, IfErr, length};
ghost use Rattle.ir_token.specs.declared.TheConstants.{MAX_BYTES};
ghost use Rattle.ir_module.specs.WellFormed.{IsWellFormed};
ghost use Rattle.accept.specs.Accepted.{AreFewTokens, IsRead, IsParsed, IsResolved};
ghost use Rattle.accept.specs.Causes.{IsCause};
ghost use Rattle.accept.specs.Following.{told};

use crate::refusal::{Limit, NESTING_LIMIT, Refusal};
use ir_module::Module;
use ir_parse_body::SyntaxRefusal;
use ir_parse_top::parse_module;
use ir_resolve::{NameRefusal, resolve};
use ir_token::{LexRefusal, MAX_BYTES, Tokens, nesting, tokens};
use ir_tree::Tree;
use std::alloc::Global;

/// What is told of a text that has no list of tokens, or one that is too long.
fn unlexed(why: LexRefusal) -> Refusal
    ensures { result ≡ told why }
{
    match why {
        LexRefusal::BadByte { .. } | LexRefusal::OpenString { .. } | LexRefusal::LeftOut { .. } => {
            Refusal::Lex(why)
        }
        LexRefusal::TooMany { count } => Refusal::TooLarge {
            which: Limit::Tokens,
            count,
        },
        LexRefusal::NoMemory => Refusal::NoMemory,
    }
}

/// The tokens of a text.
fn lexed(alloc: Global, text: &[u8]) -> Result<Tokens, Refusal>
    requires { length text.now ≤ MAX_BYTES }
    ensures read { IfOk result (AreFewTokens text.now) }
    ensures refused { IfErr result (IsCause text.now) }
{
    match tokens(alloc, text) {
        Ok(toks) => Ok(toks),
        Err(why) => Err(unlexed(why)),
    }
}

/// The same within all limits of a text.
fn read_tokens(alloc: Global, text: &[u8]) -> Result<Tokens, Refusal>
    ensures read { IfOk result (IsRead text.now) }
    ensures refused { IfErr result (IsCause text.now) }
{
    if text.len() > MAX_BYTES {
        return Err(Refusal::TooLarge {
            which: Limit::Bytes,
            count: text.len() as u64,
        });
    }
    let toks = lexed(alloc, text)?;
    let open = nesting(&toks, text);
    if open > NESTING_LIMIT {
        return Err(Refusal::TooLarge {
            which: Limit::Nesting,
            count: open,
        });
    }
    Ok(toks)
}

/// The tree of the tokens.
fn parsed(alloc: Global, toks: &Tokens, text: &[u8]) -> Result<Tree, Refusal>
    requires { IsRead text.now toks.now }
    ensures parsed { IfOk result (IsParsed text.now toks.now) }
    ensures refused { IfErr result (IsCause text.now) }
{
    match parse_module(alloc, toks, text) {
        Ok(tree) => Ok(tree),
        Err(SyntaxRefusal::NoMemory) => Err(Refusal::NoMemory),
        Err(SyntaxRefusal::Syntax { at }) => Err(Refusal::Syntax { at }),
    }
}

/// The module of the tree.
fn resolved(alloc: Global, tree: &Tree, toks: &Tokens, text: &[u8]) -> Result<Module, Refusal>
    requires { IsParsed text.now toks.now tree.now }
    ensures resolved { IfOk result (IsResolved text.now toks.now tree.now) }
    ensures formed { IfOk result IsWellFormed }
    ensures refused { IfErr result (IsCause text.now) }
{
    match resolve(alloc, tree, toks.as_slice(), text) {
        Ok(module) => Ok(module),
        Err(NameRefusal::NoMemory) => Err(Refusal::NoMemory),
        Err(why) => Err(Refusal::Name(why)),
    }
}

/// What is read of a text without its rules.
#[derive(Drop)]
pub(crate) struct Front {
    pub tokens: Tokens,
    pub tree: Tree,
    pub module: Module,
}

/// The module of a text, with its tokens and its tree.
pub(crate) fn read_module(alloc: Global, text: &[u8]) -> Result<Front, Refusal>
    ensures resolved { IfOk result (λ f. IsResolved text.now f.tokens f.tree f.module) }
    ensures formed { IfOk result (λ f. IsWellFormed f.module) }
    ensures refused { IfErr result (IsCause text.now) }
{
    let tokens = read_tokens(alloc, text)?;
    let tree = parsed(alloc, &tokens, text)?;
    let module = resolved(alloc, &tree, &tokens, text)?;
    Ok(Front {
        tokens,
        tree,
        module,
    })
}
