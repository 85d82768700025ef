//! A step's literal stack and variables, as values that own nothing beside one pool of texts, and the built-in functions.
#![tactic(auto)]

mod arguments;
mod assignment;
mod beginning;
mod buffers;
mod comparison;
mod forms;
mod joining;
mod leaving;
mod log_lines;
mod moving;
mod names;
mod numbers;
mod operands;
mod output_buffer;
mod reading;
mod shown;
mod spelling;
mod stack;
mod state;
mod step_variables;
mod table;
mod texts;
mod value;
mod variables_left;

pub use arguments::{take_choice, take_loop, take_number};
pub use assignment::assign_value;
pub use beginning::StateInput;
pub use bt_names::SoundPatterns;
pub use buffers::{StepBuffers, VariableBuffers};
pub use leaving::Left;
pub use operands::{
    call_entry_number, call_entry_text, call_field, call_global_number, call_global_text,
};
pub use stack::Stack;
pub use state::State;
pub use table::call_basic;
pub use variables_left::VariablesLeft;
