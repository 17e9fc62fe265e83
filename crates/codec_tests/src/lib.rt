//! Tests of the base types and of the codecs.
#![tactic(auto)]

#[cfg(test)]
mod attribute_tests;
#[cfg(test)]
mod byte_format_tests;
#[cfg(test)]
mod change_codec_tests;
#[cfg(test)]
mod change_spellings;
#[cfg(test)]
mod db_base_tests;
#[cfg(test)]
mod head_codec_tests;
#[cfg(test)]
mod leaf_spellings;
#[cfg(test)]
mod leaf_view_tests;
#[cfg(test)]
mod log_codec_tests;
#[cfg(test)]
mod node_codec_tests;
#[cfg(test)]
mod refusals;
#[cfg(test)]
mod txn_buffer_tests;
