//! Runs of the program over folders and streams in memory.

mod calls_in_memory;
mod check_runs;
mod cloud_runs;
mod complex_runs;
mod complexes_in_memory;
mod equal_points_runs;
mod fit_runs;
mod found_grammar_runs;
mod found_words;
mod harness;
mod large_runs;
mod located_point_runs;
mod merged_facet_runs;
mod program_runs;
mod refined_runs;
mod second_order_runs;
mod surface_runs;
mod test_inputs;
mod weighted_point_runs;
mod whole_mesh_runs;
