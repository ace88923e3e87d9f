//! Attributes (WGSL, "Attributes"; WESL, "ConditionalTranslation" and "Visibility").
use crate::expression::ExpressionNode;
use crate::span::Spanned;

/// An attribute with its span.
pub type AttributeNode = Spanned<Attribute>;

/// The attributes of one node, in source order.
pub type Attributes = Vec<AttributeNode>;

/// An attribute, with its operands.
#[derive(PartialEq)]
pub enum Attribute {
    /// `@align(operand)`
    Align(ExpressionNode),
    /// `@binding(operand)`
    Binding(ExpressionNode),
    /// `@blend_src(operand)`
    BlendSrc(ExpressionNode),
    /// `@builtin(name)`
    Builtin(String),
    /// `@const`
    Const,
    /// `@diagnostic(severity, rule)`
    Diagnostic {
        /// `error`, `warning`, `info` or `off`
        severity: String,
        /// the name of the rule, of which the parts are joined by a dot
        rule: String,
    },
    /// `@group(operand)`
    Group(ExpressionNode),
    /// `@id(operand)`
    Id(ExpressionNode),
    /// `@interpolate(type)` or `@interpolate(type, sampling)`
    Interpolate(Vec<String>),
    /// `@invariant`
    Invariant,
    /// `@location(operand)`
    Location(ExpressionNode),
    /// `@must_use`
    MustUse,
    /// `@size(operand)`
    Size(ExpressionNode),
    /// `@workgroup_size(x)`, `@workgroup_size(x, y)` or `@workgroup_size(x, y, z)`
    WorkgroupSize {
        /// the size in the first dimension
        x: ExpressionNode,
        /// the size in the second dimension, if it is given
        y: Option<ExpressionNode>,
        /// the size in the third dimension, if it is given
        z: Option<ExpressionNode>,
    },
    /// `@vertex`
    Vertex,
    /// `@fragment`
    Fragment,
    /// `@compute`
    Compute,
    /// `@publish`, by which other modules may import what an import statement brings
    Publish,
    /// `@if(condition)`
    If(ExpressionNode),
    /// `@elif(condition)`
    Elif(ExpressionNode),
    /// `@else`
    Else,
    /// any other attribute, `@name` or `@name(arguments)`
    Custom {
        /// the name of the attribute
        name: String,
        /// what stands in the parentheses, if there are any
        arguments: Option<Vec<ExpressionNode>>,
    },
}

impl Drop for Attribute {
    fn drop(self) {
        match self {
            Attribute::Align(_) => {}
            Attribute::Binding(_) => {}
            Attribute::BlendSrc(_) => {}
            Attribute::Builtin(_) => {}
            Attribute::Const => {}
            Attribute::Diagnostic {
                severity: _,
                rule: _,
            } => {}
            Attribute::Group(_) => {}
            Attribute::Id(_) => {}
            Attribute::Interpolate(_) => {}
            Attribute::Invariant => {}
            Attribute::Location(_) => {}
            Attribute::MustUse => {}
            Attribute::Size(_) => {}
            Attribute::WorkgroupSize { x: _, y: _, z: _ } => {}
            Attribute::Vertex => {}
            Attribute::Fragment => {}
            Attribute::Compute => {}
            Attribute::Publish => {}
            Attribute::If(_) => {}
            Attribute::Elif(_) => {}
            Attribute::Else => {}
            Attribute::Custom {
                name: _,
                arguments: _,
            } => {}
        }
    }
}
