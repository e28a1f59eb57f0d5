//! What the names of an expression mean where it stands: scopes with an index of names, functions by name; expressions,
//! conditions, calls and assignments resolved in a scope, or their first fault of names.
#![tactic(auto)]

mod bindings;
mod calls;
mod conditions;
mod errors;
mod expressions;
mod names;
mod scopes;
mod signatures;
mod variables;

pub use bindings::{Binding, build_array};
pub use calls::{resolve_assign, resolve_call, resolve_given};
pub use conditions::resolve_cond;
pub use errors::refuse;
pub use expressions::resolve_expr;
pub use lra_base::Place;
pub use lra_program::{Function, Program};
pub use lra_resolution_spec::Labels;
pub use lra_syntax::{ExternalDeclaration, TranslationUnit};
pub use names::Names;
pub use scopes::Scope;
pub use signatures::{Functions, Signature};
