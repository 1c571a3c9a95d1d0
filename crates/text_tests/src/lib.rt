//! Tests of the crates of texts and values: words, numbers, GeoJSON, rows of bytes, command words, the lines of scripts, and the map of
//! places that answers by a scan.
#![tactic(auto)]

#[cfg(test)]
mod command_words_tests;
#[cfg(test)]
mod fixed_coords_tests;
#[cfg(test)]
mod geojson_points_tests;
#[cfg(test)]
mod json_feed_tests;
#[cfg(test)]
mod json_spelled_tests;
#[cfg(test)]
mod line_tokens_tests;
#[cfg(test)]
mod number_grammar_tests;
#[cfg(test)]
mod place_generator_tests;
#[cfg(test)]
mod place_map_tests;
#[cfg(test)]
mod query_lang_tests;
#[cfg(test)]
mod row_codec_tests;
#[cfg(test)]
mod spatial_base_tests;
#[cfg(test)]
mod term_impacts_tests;
