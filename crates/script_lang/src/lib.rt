//! The script language: lines to calls, and the text of a history.
#![tactic(auto)]

mod arguments;
mod forms;
mod keys;
mod labels;
mod numbers;
mod owners;
mod phrases;
mod reader;
mod samples;
mod scripts;
mod sentence;
mod text;
mod variables;
mod verbs;
mod words;

pub use forms::is_file;
pub use labels::{Boxed, Label};
pub use numbers::{are_digits, number};
pub use reader::{parse, parse_by};
pub use scripts::{ArgList, Cause, Line, RopeArg, Script, ScriptError, Verb};
pub use text::entry_text;
pub use variables::{Env, resolve};
pub use verbs::{Built, VerbName};
