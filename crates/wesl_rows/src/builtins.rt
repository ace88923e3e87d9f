//! Types and address spaces whose names are built in.
use wesl::{AddressSpace, VecSize};
use wesl_rows_base::Row;

/// The size of the number at a key.
pub fn size(row: Row<'_>, key: &str) -> VecSize {
    match row.number(key, 0) {
        2 => VecSize::Two,
        3 => VecSize::Three,
        _ => VecSize::Four,
    }
}

/// The address space of the word `space`.
pub fn space(row: Row<'_>) -> AddressSpace {
    match row.text("space") {
        "function" => AddressSpace::Function,
        "private" => AddressSpace::Private,
        "workgroup" => AddressSpace::Workgroup,
        "uniform" => AddressSpace::Uniform,
        "storage" => AddressSpace::Storage,
        _ => AddressSpace::Handle,
    }
}
