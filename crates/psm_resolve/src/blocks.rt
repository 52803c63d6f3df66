//! Statements with statements in them.
ghost use Rattle.std.specs.Prelude.{◌≡◌, ◌++◌, ◌∷◌, [], map, IfOk};
ghost use Rattle.std.specs.Option.{option_copied};
ghost use Rattle.psm_list.specs.Several.{several_map};
ghost use Rattle.psm_rules.specs.StatementFaults.{label_name, several};
ghost use Rattle.psm_declare.specs.Seen.{control};
ghost use Rattle.psm_resolve.specs.Blocks.{all, resolve_block, resolve_branch, resolve_handler, in_loop, resolve_statement};

use crate::forms::{
    case_of, compound_of, for_of, if_of, loop_of, push_branch_with, push_handler_with, repeat_of,
    simple_at, while_of,
};
use crate::fors::enter_for;
use psm_declare::{Numbering, ResolveContext, enter_compound};
use psm_list::{Boxed, List, OneOrMore};
use psm_resolve_expr::Scopes;
use psm_resolved::{ResolvedBranch, ResolvedHandler, ResolvedStatement};
use psm_scope::ScopeKind;
use psm_symbols::label_name;
use psm_text::Name;
use psm_tree::{Block, Branch, Handler, Statement};
use std::alloc::AllocError;

/// The resolved statement that stands for one; its declarations are numbered. Fails only without memory.
#[cycle(statement)]
#[tactic(auto, using(crate::proofs::Equations::statement_equations))]
pub(crate) fn resolve_statement<'w, 'a>(
    statement: &'a Statement,
    resolver: ResolveContext<'w, 'a>,
    scopes: &mut Scopes<'a>,
    numbering: &mut Numbering<'a>,
) -> Result<Boxed<ResolvedStatement>, AllocError>
    ensures resolved { IfOk result (λ s. s ≡ (resolve_statement statement.now (control resolver.entry scopes.old) numbering.old).0) }
    ensures numbering { IfOk result (λ _. numbering.new ≡ (resolve_statement statement.now (control resolver.entry scopes.old) numbering.old).1) }
    ensures kept { IfOk result (λ _. scopes.new ≡ scopes.old) }
{
    match statement {
        Statement::Block { label, block } => {
            resolve_block(block.get(), resolver, scopes, numbering, label_name(label))
        }
        Statement::If {
            branches,
            otherwise,
            ..
        } => {
            let branches = resolve_branches(branches, resolver, scopes, numbering)?;
            let otherwise = all(otherwise, resolver, scopes, numbering)?;
            if_of(resolver.alloc, branches, otherwise)
        }
        Statement::Case {
            operand,
            branches,
            otherwise,
            ..
        } => {
            let branches = resolve_branches(branches, resolver, scopes, numbering)?;
            let otherwise = all(otherwise, resolver, scopes, numbering)?;
            case_of(resolver, scopes, operand, branches, otherwise)
        }
        Statement::Simple(simple) => simple_at(resolver, scopes, simple.get()),
    }
}

// ---- lists of statements

#[cycle(statement)]
fn push_statement<'w, 'a>(
    statement: &'a Statement,
    resolver: ResolveContext<'w, 'a>,
    scopes: &mut Scopes<'a>,
    numbering: &mut Numbering<'a>,
    resolved: &mut Vec<Boxed<ResolvedStatement>>,
) -> Result<(), AllocError>
    ensures resolved { IfOk result (λ _. resolved.new.items ≡ resolved.old.items ++ (resolve_statement statement.now (control resolver.entry scopes.old) numbering.old).0 ∷ []) }
    ensures numbering { IfOk result (λ _. numbering.new ≡ (resolve_statement statement.now (control resolver.entry scopes.old) numbering.old).1) }
    ensures kept { IfOk result (λ _. scopes.new ≡ scopes.old) }
{
    let one = resolve_statement(statement, resolver, scopes, numbering)?;
    resolved.push(one)?;
    Ok(())
}

#[cycle(statement)]
fn all<'w, 'a>(
    statements: &'a List<Boxed<Statement>>,
    resolver: ResolveContext<'w, 'a>,
    scopes: &mut Scopes<'a>,
    numbering: &mut Numbering<'a>,
) -> Result<List<Boxed<ResolvedStatement>>, AllocError>
    ensures resolved { IfOk result (λ ss. ss ≡ (all (control resolver.entry scopes.old) (map resolve_statement statements.now) numbering.old).0) }
    ensures numbering { IfOk result (λ _. numbering.new ≡ (all (control resolver.entry scopes.old) (map resolve_statement statements.now) numbering.old).1) }
    ensures kept { IfOk result (λ _. scopes.new ≡ scopes.old) }
{
    let mut resolved = Vec::new(resolver.alloc);
    for statement in statements.items() {
        push_statement(statement.get(), resolver, scopes, numbering, &mut resolved)?;
    }
    Ok(List::of(resolved))
}

#[cycle(statement)]
fn several<'w, 'a>(
    statements: &'a OneOrMore<Boxed<Statement>>,
    resolver: ResolveContext<'w, 'a>,
    scopes: &mut Scopes<'a>,
    numbering: &mut Numbering<'a>,
) -> Result<List<Boxed<ResolvedStatement>>, AllocError>
    ensures resolved { IfOk result (λ ss. ss ≡ (all (control resolver.entry scopes.old) (several (several_map resolve_statement statements.now)) numbering.old).0) }
    ensures numbering { IfOk result (λ _. numbering.new ≡ (all (control resolver.entry scopes.old) (several (several_map resolve_statement statements.now)) numbering.old).1) }
    ensures kept { IfOk result (λ _. scopes.new ≡ scopes.old) }
{
    let mut resolved = Vec::new(resolver.alloc);
    push_statement(
        statements.first.get(),
        resolver,
        scopes,
        numbering,
        &mut resolved,
    )?;
    for statement in statements.rest.items() {
        push_statement(statement.get(), resolver, scopes, numbering, &mut resolved)?;
    }
    Ok(List::of(resolved))
}

// ---- IF and CASE

#[cycle(statement)]
fn resolve_branches<'w, 'a>(
    branches: &'a OneOrMore<Boxed<Branch>>,
    resolver: ResolveContext<'w, 'a>,
    scopes: &mut Scopes<'a>,
    numbering: &mut Numbering<'a>,
) -> Result<List<Boxed<ResolvedBranch>>, AllocError>
    ensures resolved { IfOk result (λ bs. bs ≡ (all (control resolver.entry scopes.old) (several (several_map resolve_branch branches.now)) numbering.old).0) }
    ensures numbering { IfOk result (λ _. numbering.new ≡ (all (control resolver.entry scopes.old) (several (several_map resolve_branch branches.now)) numbering.old).1) }
    ensures kept { IfOk result (λ _. scopes.new ≡ scopes.old) }
{
    let mut resolved = Vec::new(resolver.alloc);
    push_branch(
        branches.first.get(),
        resolver,
        scopes,
        numbering,
        &mut resolved,
    )?;
    for branch in branches.rest.items() {
        push_branch(branch.get(), resolver, scopes, numbering, &mut resolved)?;
    }
    Ok(List::of(resolved))
}

#[cycle(statement)]
#[tactic(auto, using(crate::proofs::Equations::resolved_branch))]
fn push_branch<'w, 'a>(
    branch: &'a Branch,
    resolver: ResolveContext<'w, 'a>,
    scopes: &mut Scopes<'a>,
    numbering: &mut Numbering<'a>,
    resolved: &mut Vec<Boxed<ResolvedBranch>>,
) -> Result<(), AllocError>
    ensures resolved { IfOk result (λ _. resolved.new.items ≡ resolved.old.items ++ (resolve_branch branch.now (control resolver.entry scopes.old) numbering.old).0 ∷ []) }
    ensures numbering { IfOk result (λ _. numbering.new ≡ (resolve_branch branch.now (control resolver.entry scopes.old) numbering.old).1) }
    ensures kept { IfOk result (λ _. scopes.new ≡ scopes.old) }
{
    let statements = several(&branch.statements, resolver, scopes, numbering)?;
    push_branch_with(resolver, scopes, branch, statements, resolved)
}

// ---- blocks

#[cycle(statement)]
#[tactic(auto, using(crate::proofs::Equations::block_equations))]
fn resolve_block<'w, 'a>(
    block: &'a Block,
    resolver: ResolveContext<'w, 'a>,
    scopes: &mut Scopes<'a>,
    numbering: &mut Numbering<'a>,
    label: Option<&'a Name>,
) -> Result<Boxed<ResolvedStatement>, AllocError>
    ensures resolved { IfOk result (λ s. s ≡ (resolve_block block.now (option_copied label.entry) (control resolver.entry scopes.old) numbering.old).0) }
    ensures numbering { IfOk result (λ _. numbering.new ≡ (resolve_block block.now (option_copied label.entry) (control resolver.entry scopes.old) numbering.old).1) }
    ensures kept { IfOk result (λ _. scopes.new ≡ scopes.old) }
{
    match block {
        Block::Compound {
            atomic,
            declarations,
            cursors,
            handlers,
            statements,
            ..
        } => {
            let own = enter_compound(resolver, scopes, numbering, label, declarations, cursors)?;
            let handlers = resolve_handlers(handlers, resolver, scopes, numbering)?;
            let statements = all(statements, resolver, scopes, numbering)?;
            scopes.pop();
            compound_of(resolver.alloc, scopes, *atomic, own, handlers, statements)
        }
        Block::Loop { statements, .. } => {
            let resolved = resolve_loop(statements, resolver, scopes, numbering, label)?;
            loop_of(resolver.alloc, scopes, resolved)
        }
        Block::While {
            test,
            statements,
            ..
        } => {
            let resolved = resolve_loop(statements, resolver, scopes, numbering, label)?;
            while_of(resolver, scopes, test.get(), resolved)
        }
        Block::Repeat {
            statements,
            until,
            ..
        } => {
            let resolved = resolve_loop(statements, resolver, scopes, numbering, label)?;
            repeat_of(resolver, scopes, resolved, until.get())
        }
        Block::For {
            head,
            statements,
            ..
        } => {
            let head = enter_for(resolver, scopes, numbering, label, head.get())?;
            let resolved = several(statements, resolver, scopes, numbering)?;
            scopes.pop();
            for_of(resolver.alloc, scopes, head, resolved)
        }
    }
}

#[cycle(statement)]
fn resolve_loop<'w, 'a>(
    statements: &'a OneOrMore<Boxed<Statement>>,
    resolver: ResolveContext<'w, 'a>,
    scopes: &mut Scopes<'a>,
    numbering: &mut Numbering<'a>,
    label: Option<&'a Name>,
) -> Result<List<Boxed<ResolvedStatement>>, AllocError>
    ensures resolved { IfOk result (λ ss. ss ≡ (all (in_loop (option_copied label.entry) (control resolver.entry scopes.old)) (several (several_map resolve_statement statements.now)) numbering.old).0) }
    ensures numbering { IfOk result (λ _. numbering.new ≡ (all (in_loop (option_copied label.entry) (control resolver.entry scopes.old)) (several (several_map resolve_statement statements.now)) numbering.old).1) }
    ensures kept { IfOk result (λ _. scopes.new ≡ scopes.old) }
{
    scopes.push(ScopeKind::Loop(label))?;
    let resolved = several(statements, resolver, scopes, numbering)?;
    scopes.pop();
    Ok(resolved)
}

// ---- handlers

#[cycle(statement)]
fn resolve_handlers<'w, 'a>(
    handlers: &'a List<Boxed<Handler>>,
    resolver: ResolveContext<'w, 'a>,
    scopes: &mut Scopes<'a>,
    numbering: &mut Numbering<'a>,
) -> Result<List<Boxed<ResolvedHandler>>, AllocError>
    ensures resolved { IfOk result (λ hs. hs ≡ (all (control resolver.entry scopes.old) (map resolve_handler handlers.now) numbering.old).0) }
    ensures numbering { IfOk result (λ _. numbering.new ≡ (all (control resolver.entry scopes.old) (map resolve_handler handlers.now) numbering.old).1) }
    ensures kept { IfOk result (λ _. scopes.new ≡ scopes.old) }
{
    let mut resolved = Vec::new(resolver.alloc);
    for handler in handlers.items() {
        push_handler(handler.get(), resolver, scopes, numbering, &mut resolved)?;
    }
    Ok(List::of(resolved))
}

// An action sees no label from outside.
#[cycle(statement)]
#[tactic(auto, using(crate::proofs::Equations::resolved_handler))]
fn push_handler<'w, 'a>(
    handler: &'a Handler,
    resolver: ResolveContext<'w, 'a>,
    scopes: &mut Scopes<'a>,
    numbering: &mut Numbering<'a>,
    resolved: &mut Vec<Boxed<ResolvedHandler>>,
) -> Result<(), AllocError>
    ensures resolved { IfOk result (λ _. resolved.new.items ≡ resolved.old.items ++ (resolve_handler handler.now (control resolver.entry scopes.old) numbering.old).0 ∷ []) }
    ensures numbering { IfOk result (λ _. numbering.new ≡ (resolve_handler handler.now (control resolver.entry scopes.old) numbering.old).1) }
    ensures kept { IfOk result (λ _. scopes.new ≡ scopes.old) }
{
    scopes.push(ScopeKind::Action)?;
    let action = resolve_statement(handler.action.get(), resolver, scopes, numbering)?;
    scopes.pop();
    push_handler_with(resolver.alloc, scopes, handler, action, resolved)
}
