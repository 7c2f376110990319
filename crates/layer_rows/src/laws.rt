//! The laws of the layers, each called once.

use script_text::{one_grammar, paths_are_read_as_spelled, words_are_read_back};

#[test]
fn laws_of_labels_are_called() {
    label_core::laws::sets_are_their_numbers();
    label_core::laws::dominance_is_reflexive();
    label_core::laws::dominance_is_transitive();
    label_core::laws::low_is_below_and_high_above();
    label_core::laws::dominance_is_antisymmetric();
    label_core::laws::elements_are_read_as_spelled();
    label_core::laws::subjects_are_read_as_spelled();
    label_core::laws::elements_read_back();
    label_core::laws::subjects_read_back();
    label_core::laws::element_faults_are_first();
    label_core::laws::subject_faults_are_first();
}

#[test]
fn laws_of_lists_are_called() {
    acl_core::laws::order_is_free();
    acl_core::laws::owner_decides_alone();
    acl_core::laws::user_decides_alone();
    acl_core::laws::groups_never_fall_through();
    acl_core::laws::other_decides_alone();
    acl_core::laws::mask_never_widens();
    acl_core::laws::minimal_is_the_nine_bits();
    acl_core::laws::mode_is_kept();
    acl_core::laws::inherited_never_widens();
    acl_core::laws::printed_is_read_again();
    acl_core::laws::printed_is_one_word();
}

#[test]
fn laws_of_lines_are_called() {
    line_disc::laws::keeps_blocks();
    line_disc::laws::other_disciplines();
    line_disc::laws::fit_counts();
    line_disc::laws::limits();
    tty_dev::laws::dead_files();
    tty_dev::laws::live_files();
    tty_dev::laws::counts();
    tty_dev::laws::lines_as_devices();
    tty_dev::laws::blocks_of_lines();
    block_pool::laws::others_keep();
    pipe_core::laws::same_pipes();
    pipe_core::laws::blocks_of_pipes();
    tty_dev::laws::limits();
}

#[test]
fn laws_of_texts_are_called() {
    one_grammar();
    paths_are_read_as_spelled();
    words_are_read_back();
    termios_core::laws::read_back();
    termios_core::laws::one_grammar();
    termios_core::laws::one_word();
    sh_text::laws::words_are_read_as_spelled();
    sh_text::laws::lines_are_read_as_spelled();
    sh_text::laws::line_faults_are_first();
}
