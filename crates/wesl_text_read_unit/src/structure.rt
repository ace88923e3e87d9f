//! Reading structures (WGSL, "Structure Types").
ghost use Rattle.wesl_tree_syntax.specs.Tree.{member_node, members, struct};
ghost use Rattle.wesl_tree_syntax.specs.View.{listed, member_view, placed, struct_view};
ghost use Rattle.wesl_text_form.specs.Productions.{a_bare_declaration, a_bare_member, a_member};
ghost use Rattle.wesl_text_tokens.specs.declared.symbol.Symbol.TheVariants as symbols;
ghost use Rattle.wesl_text_read.specs.Leads.{Reads};
ghost use Rattle.wesl_text_read.specs.Levels.{inner};
ghost use Rattle.wesl_text_read_imports.specs.Closed.{closed_at};
ghost use Rattle.wesl_text_read_imports.specs.Nodes.{kind_at};

use wesl_text_read::{Expected, Reader};
use wesl_text_read_ahead::skip_word;
use wesl_text_read_imports::next_item;
use wesl_text_tokens::Symbol;
use wesl_tree_syntax::{Struct, StructMember, StructMemberNode};

/// `struct name { members }`
pub fn structure(reader: &mut Reader<'_>) -> Struct
    ensures { Reads (kind_at reader.old.levels a_bare_declaration struct)
        (struct_view result) reader.old reader.new }
{
    let attributes = reader.attributes();
    skip_word(reader, "struct");
    let ident = reader.ident();
    reader.skip_sign(Symbol::BraceLeft);
    let members = members(reader);
    Struct {
        attributes,
        ident,
        members,
    }
}

// Members with commas between, and the brace that closes them.
fn members(reader: &mut Reader<'_>) -> Vec<StructMemberNode>
    ensures { Reads (closed_at reader.old.levels members a_member symbols.BraceRight)
        (listed (placed member_view member_node) members result) reader.old reader.new }
{
    let mut members = Vec::new(reader.alloc);
    let mut room = reader.rest.len();
    let mut goes_on = !reader.begins_sign(Symbol::BraceRight);
    'members: while goes_on && room > 0 {
        room -= 1;
        let member = member(reader);
        reader.put(&mut members, member);
        goes_on = next_item(reader, Symbol::BraceRight);
    }
    reader.wrong_if(goes_on, Expected::Symbol(Symbol::BraceRight));
    reader.skip_sign(Symbol::BraceRight);
    members
}

fn member(reader: &mut Reader<'_>) -> StructMemberNode
    ensures { Reads (inner reader.old.levels a_member) (placed member_view member_node result) reader.old reader.new }
{
    let start = reader.place();
    let node = bare_member(reader);
    reader.placed(start, node)
}

// `name: ty`.
fn bare_member(reader: &mut Reader<'_>) -> StructMember
    ensures { Reads (inner reader.old.levels a_bare_member) (member_view result) reader.old reader.new }
{
    let attributes = reader.attributes();
    let name = reader.name();
    reader.skip_sign(Symbol::Colon);
    let ty = reader.type_expression();
    StructMember {
        attributes,
        name,
        ty,
    }
}
