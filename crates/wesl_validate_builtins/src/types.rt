//! The names of built-in types and words (WGSL, "Types", "Address Spaces" and "Memory Access Mode").
ghost use Rattle.std.specs.Prelude.{◌≡◌, Option, Some};
ghost use Rattle.std.specs.Option.{option_map};
ghost use Rattle.wesl_tree_names.specs.Path.{Text};
ghost use Rattle.wesl_validate_builtins.specs.Types.{type_name, texture_name, sampler_name, sampled_name, space_name, access_name};

use wesl_tree::{AccessMode, AddressSpace};

/// How many components a vector has, or a matrix in a column or a row.
#[derive(Clone, Copy, Debug, PartialEq, Eq)]
pub enum VecSize {
    /// 2
    Two,
    /// 3
    Three,
    /// 4
    Four,
}

/// A texture type.
#[derive(Clone, Copy, Debug, PartialEq, Eq)]
pub enum TextureType {
    /// `texture_1d`
    Sampled1D,
    /// `texture_2d`
    Sampled2D,
    /// `texture_2d_array`
    Sampled2DArray,
    /// `texture_3d`
    Sampled3D,
    /// `texture_cube`
    SampledCube,
    /// `texture_cube_array`
    SampledCubeArray,
    /// `texture_multisampled_2d`
    Multisampled2D,
    /// `texture_depth_multisampled_2d`
    DepthMultisampled2D,
    /// `texture_external`
    External,
    /// `texture_storage_1d`
    Storage1D,
    /// `texture_storage_2d`
    Storage2D,
    /// `texture_storage_2d_array`
    Storage2DArray,
    /// `texture_storage_3d`
    Storage3D,
    /// `texture_depth_2d`
    Depth2D,
    /// `texture_depth_2d_array`
    Depth2DArray,
    /// `texture_depth_cube`
    DepthCube,
    /// `texture_depth_cube_array`
    DepthCubeArray,
}

/// A sampler type.
#[derive(Clone, Copy, Debug, PartialEq, Eq)]
pub enum SamplerType {
    /// `sampler`
    Sampler,
    /// `sampler_comparison`
    SamplerComparison,
}

/// What a sampled texture holds.
#[derive(Clone, Copy, Debug, PartialEq, Eq)]
pub enum SampledType {
    /// `i32`
    I32,
    /// `u32`
    U32,
    /// `f32`
    F32,
}

/// A built-in type, by its name alone.
#[derive(Clone, Copy, Debug, PartialEq, Eq)]
pub enum BuiltinType {
    /// `bool`
    Bool,
    /// the type of a whole number without a suffix, which no source text names
    AbstractInt,
    /// the type of a fraction without a suffix, which no source text names
    AbstractFloat,
    /// `i32`
    I32,
    /// `u32`
    U32,
    /// `f32`
    F32,
    /// `f16`
    F16,
    /// a struct, which has the name that its declaration gives
    Struct,
    /// `array`
    Array,
    /// `vec2` to `vec4`
    Vec(VecSize),
    /// `mat2x2` to `mat4x4`: columns, rows
    Mat(VecSize, VecSize),
    /// `atomic`
    Atomic,
    /// `ptr`
    Ptr,
    /// the type of a reference to memory, which no source text names
    Ref,
    /// a texture
    Texture(TextureType),
    /// a sampler
    Sampler(SamplerType),
}

/// What has a name that is built in.
pub trait BuiltinIdent {
    /// the name that is built in, if there is one
    ghost word: { Self → Option Text };

    /// Its name, if it has one.
    fn builtin_ident(&self) -> Option<&'static str>
        ensures { option_map (λ s. s.now) result ≡ word self.now };
}

impl BuiltinIdent for BuiltinType {
    ghost word = { type_name };

    fn builtin_ident(&self) -> Option<&'static str> {
        match self {
            BuiltinType::Bool => Some("bool"),
            BuiltinType::AbstractInt => Some("__AbstractInt"),
            BuiltinType::AbstractFloat => Some("__AbstractFloat"),
            BuiltinType::I32 => Some("i32"),
            BuiltinType::U32 => Some("u32"),
            BuiltinType::F32 => Some("f32"),
            BuiltinType::F16 => Some("f16"),
            BuiltinType::Struct => None,
            BuiltinType::Array => Some("array"),
            BuiltinType::Vec(VecSize::Two) => Some("vec2"),
            BuiltinType::Vec(VecSize::Three) => Some("vec3"),
            BuiltinType::Vec(VecSize::Four) => Some("vec4"),
            BuiltinType::Mat(VecSize::Two, VecSize::Two) => Some("mat2x2"),
            BuiltinType::Mat(VecSize::Two, VecSize::Three) => Some("mat2x3"),
            BuiltinType::Mat(VecSize::Two, VecSize::Four) => Some("mat2x4"),
            BuiltinType::Mat(VecSize::Three, VecSize::Two) => Some("mat3x2"),
            BuiltinType::Mat(VecSize::Three, VecSize::Three) => Some("mat3x3"),
            BuiltinType::Mat(VecSize::Three, VecSize::Four) => Some("mat3x4"),
            BuiltinType::Mat(VecSize::Four, VecSize::Two) => Some("mat4x2"),
            BuiltinType::Mat(VecSize::Four, VecSize::Three) => Some("mat4x3"),
            BuiltinType::Mat(VecSize::Four, VecSize::Four) => Some("mat4x4"),
            BuiltinType::Atomic => Some("atomic"),
            BuiltinType::Ptr => Some("ptr"),
            BuiltinType::Ref => Some("__ref"),
            BuiltinType::Texture(texture) => texture.builtin_ident(),
            BuiltinType::Sampler(sampler) => sampler.builtin_ident(),
        }
    }
}

impl BuiltinIdent for TextureType {
    ghost word = { λ t. Some (texture_name t) };

    fn builtin_ident(&self) -> Option<&'static str> {
        match self {
            TextureType::Sampled1D => Some("texture_1d"),
            TextureType::Sampled2D => Some("texture_2d"),
            TextureType::Sampled2DArray => Some("texture_2d_array"),
            TextureType::Sampled3D => Some("texture_3d"),
            TextureType::SampledCube => Some("texture_cube"),
            TextureType::SampledCubeArray => Some("texture_cube_array"),
            TextureType::Multisampled2D => Some("texture_multisampled_2d"),
            TextureType::DepthMultisampled2D => Some("texture_depth_multisampled_2d"),
            TextureType::External => Some("texture_external"),
            TextureType::Storage1D => Some("texture_storage_1d"),
            TextureType::Storage2D => Some("texture_storage_2d"),
            TextureType::Storage2DArray => Some("texture_storage_2d_array"),
            TextureType::Storage3D => Some("texture_storage_3d"),
            TextureType::Depth2D => Some("texture_depth_2d"),
            TextureType::Depth2DArray => Some("texture_depth_2d_array"),
            TextureType::DepthCube => Some("texture_depth_cube"),
            TextureType::DepthCubeArray => Some("texture_depth_cube_array"),
        }
    }
}

impl BuiltinIdent for SamplerType {
    ghost word = { λ s. Some (sampler_name s) };

    fn builtin_ident(&self) -> Option<&'static str> {
        match self {
            SamplerType::Sampler => Some("sampler"),
            SamplerType::SamplerComparison => Some("sampler_comparison"),
        }
    }
}

impl BuiltinIdent for SampledType {
    ghost word = { λ s. Some (sampled_name s) };

    fn builtin_ident(&self) -> Option<&'static str> {
        match self {
            SampledType::I32 => Some("i32"),
            SampledType::U32 => Some("u32"),
            SampledType::F32 => Some("f32"),
        }
    }
}

impl BuiltinIdent for AddressSpace {
    ghost word = { space_name };

    fn builtin_ident(&self) -> Option<&'static str> {
        match self {
            AddressSpace::Function => Some("function"),
            AddressSpace::Private => Some("private"),
            AddressSpace::Workgroup => Some("workgroup"),
            AddressSpace::Uniform => Some("uniform"),
            AddressSpace::Storage => Some("storage"),
            AddressSpace::Handle => None,
        }
    }
}

impl BuiltinIdent for AccessMode {
    ghost word = { λ m. Some (access_name m) };

    fn builtin_ident(&self) -> Option<&'static str> {
        match self {
            AccessMode::Read => Some("read"),
            AccessMode::Write => Some("write"),
            AccessMode::ReadWrite => Some("read_write"),
        }
    }
}
