//! Worked rows of the definitions: the numbers of small modules, in document order.
ghost use Rattle.wesl_link_laws.specs.Rows.{for_loop_row, loop_with_continuing_row, paths_row, word_first_row, parameters_and_body_row, function_attributes_row, branches_row, bodies_row, update_below_row, declared_again_row, used_before_row, typed_and_attributed_row, imports_row, word_kinds_row, continuing_attributes_row, for_without_parts_row, nested_functions_row, declared_update_row};
ghost use Rattle.wesl_link_laws.specs.Retarget.{RetargetRow};

/// Numbers of small modules.
pub fn numbers_of_rows()
    ensures for_loop_row { for_loop_row }
    ensures loop_with_continuing_row { loop_with_continuing_row }
    ensures paths_row { paths_row }
    ensures word_first_row { word_first_row }
    ensures parameters_and_body_row { parameters_and_body_row }
    ensures function_attributes_row { function_attributes_row }
    ensures branches_row { branches_row }
    ensures bodies_row { bodies_row }
    ensures update_below_row { update_below_row }
    ensures declared_again_row { declared_again_row }
    ensures used_before_row { used_before_row }
    ensures typed_and_attributed_row { typed_and_attributed_row }
    ensures imports_row { imports_row }
    ensures word_kinds_row { word_kinds_row }
    ensures continuing_attributes_row { continuing_attributes_row }
    ensures for_without_parts_row { for_without_parts_row }
    ensures nested_functions_row { nested_functions_row }
    ensures declared_update_row { declared_update_row }
{}

/// Equal digits stand exactly where numbers are equal.
pub fn retarget_row()
    ensures { RetargetRow }
{}
