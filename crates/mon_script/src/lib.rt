//! Scripts: lines one after another and in blocks, read from a text over a topology; and input that is made from a
//! number.
#![tactic(auto)]

mod blocks;
mod control_texts;
mod controls;
mod faults;
mod follows;
mod forms;
mod generator;
mod lines;
mod made_input;
mod made_texts;
mod places;
mod questions;
mod script;
mod standing_lines;
mod words;

pub use blocks::cut_block;
pub use control_texts::{
    ControlRefusal, recovered_text, retired_text, source_down_text, switched_text, trimmed_text,
};
pub use controls::{ControlForm, ControlWord, control_of, control_word};
pub use faults::{ScriptFault, ScriptKind};
pub use follows::Moments;
pub use forms::{BlockMark, LineForm};
pub use generator::made_points;
pub use lines::{cut_at, is_remark, next_line};
pub use made_input::MadeInput;
pub use made_texts::{made_config, made_script};
pub use places::{MOST_LINES, MOST_LINES_OF_BLOCK, Mark, mark_of};
pub use questions::{How, Question};
pub use script::{Script, ScriptLine, read_script};
pub use standing_lines::StandingLine;
pub use words::moment_of;
