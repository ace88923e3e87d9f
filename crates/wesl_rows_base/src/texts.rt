//! Texts of units as answers.
use crate::answers::Object;
use crate::inputs::Row;
use serde_json::Value;
use wesl_json::JsonText;
use wesl_resolve_base::UnitText;
use wesl_tree::TranslationUnit;

/// The text that is printed of a unit, and whether it is read with the unit's spelling; or the fault where it is not
/// printed or not read.
pub fn printed(row: Row<'_>, unit: &TranslationUnit) -> Value {
    match row.told(JsonText.print(row.alloc, unit)) {
        Ok(text) => match row.told(JsonText.read(row.alloc, text.as_str())) {
            Ok(again) => {
                let mut answer = Object::new(row.alloc);
                answer.text("printed", text.as_str());
                answer.flag("read_again", again.same_spelling(unit));
                answer.end(row)
            }
            Err(fault) => fault,
        },
        Err(fault) => fault,
    }
}
