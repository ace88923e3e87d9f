//! Worked rows of the definitions: whether the names of small units read as their numbers say.
ghost use Rattle.wesl_link_laws.specs.Faith.{shadowed_row, parameter_clash_row, parameter_apart_row, free_clash_row, free_apart_row, unmangled_row, free_mangled_row, used_in_value_of_local_row, used_before_local_row, used_after_block_with_local_row, used_in_continuing_row, used_in_for_row, free_with_binders_number_row, two_locals_one_after_row, two_locals_both_before_row, two_module_names_row, first_of_two_locals_row, global_after_use_row, free_with_a_later_local_number_row, two_parameters_row, shadowed_retargeted, parameter_clash_retargeted, parameter_apart_retargeted, free_clash_retargeted, free_apart_retargeted, unmangled_retargeted, free_mangled_retargeted, used_in_value_of_local_retargeted, used_before_local_retargeted, used_after_block_with_local_retargeted, used_in_continuing_retargeted, used_in_for_retargeted, free_with_binders_number_retargeted, two_locals_both_before_retargeted, two_module_names_retargeted, first_of_two_locals_retargeted, global_after_use_retargeted, free_with_a_later_local_number_retargeted, two_parameters_retargeted};

/// Whether the names of small units read as their numbers say.
pub fn faith_of_rows()
    ensures shadowed { shadowed_row }
    ensures parameter_clash { parameter_clash_row }
    ensures parameter_apart { parameter_apart_row }
    ensures free_clash { free_clash_row }
    ensures free_apart { free_apart_row }
    ensures unmangled { unmangled_row }
    ensures free_mangled { free_mangled_row }
    ensures used_in_value_of_local { used_in_value_of_local_row }
    ensures used_before_local { used_before_local_row }
    ensures used_after_block_with_local { used_after_block_with_local_row }
    ensures used_in_continuing { used_in_continuing_row }
    ensures used_in_for { used_in_for_row }
    ensures free_with_binders_number { free_with_binders_number_row }
    ensures two_locals_one_after { two_locals_one_after_row }
    ensures two_locals_both_before { two_locals_both_before_row }
    ensures two_module_names { two_module_names_row }
    ensures first_of_two_locals { first_of_two_locals_row }
    ensures global_after_use { global_after_use_row }
    ensures free_with_a_later_local_number { free_with_a_later_local_number_row }
    ensures two_parameters { two_parameters_row }
{}

/// New numbers by meaning are those of these units exactly where their names do not clash.
pub fn numbers_of_faithful_rows()
    ensures shadowed { shadowed_retargeted }
    ensures parameter_clash { parameter_clash_retargeted }
    ensures parameter_apart { parameter_apart_retargeted }
    ensures free_clash { free_clash_retargeted }
    ensures free_apart { free_apart_retargeted }
    ensures unmangled { unmangled_retargeted }
    ensures free_mangled { free_mangled_retargeted }
    ensures used_in_value_of_local { used_in_value_of_local_retargeted }
    ensures used_before_local { used_before_local_retargeted }
    ensures used_after_block_with_local { used_after_block_with_local_retargeted }
    ensures used_in_continuing { used_in_continuing_retargeted }
    ensures used_in_for { used_in_for_retargeted }
    ensures free_with_binders_number { free_with_binders_number_retargeted }
    ensures two_locals_both_before { two_locals_both_before_retargeted }
    ensures two_module_names { two_module_names_retargeted }
    ensures first_of_two_locals { first_of_two_locals_retargeted }
    ensures global_after_use { global_after_use_retargeted }
    ensures free_with_a_later_local_number { free_with_a_later_local_number_retargeted }
    ensures two_parameters { two_parameters_retargeted }
{}
