//! Tests of words, lines, replies, dumps and made schedules, and of the sources and sinks that they come by and go to.
#![tactic(auto)]

#[cfg(test)]
mod command_words_tests;
#[cfg(test)]
mod db_io_tests;
#[cfg(test)]
mod dump_text_tests;
#[cfg(test)]
mod event_text_tests;
#[cfg(test)]
mod io_script;
#[cfg(test)]
mod line_io_tests;
#[cfg(test)]
mod reply_table_tests;
#[cfg(test)]
mod reply_text_tests;
#[cfg(test)]
mod sched_gen_tests;
