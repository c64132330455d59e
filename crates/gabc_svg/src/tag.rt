//! The names of elements and of attributes.

/// The name of an element.
#[derive(Clone, Copy, Debug, PartialEq, Eq)]
pub enum Tag {
    Svg,
    Title,
    Group,
    Rect,
    Use,
    Text,
    Path,
}

/// The name of an attribute.
#[derive(Clone, Copy, Debug, PartialEq, Eq)]
pub enum Name {
    Xmlns,
    Space,
    ViewBox,
    Width,
    Height,
    Class,
    FontSize,
    Role,
    Transform,
    X,
    Y,
    Href,
    TextLength,
    LengthAdjust,
    FontWeight,
    FontStyle,
    FontVariant,
    FontFamily,
    TextDecoration,
    Id,
    Begin,
    End,
    Course,
}

impl Tag {
    ghost use Rattle.std.specs.Prelude.{◌≡◌, ◌++◌, codes};
    ghost use Rattle.gabc_svg.specs.Xml.{closed, text_of_tag};

    /// Returns the begin of the tag that opens the element, up to its attributes.
    pub fn begin(self) -> &'static str
        ensures { result.now ≡ codes "<" ++ text_of_tag self }
    {
        match self {
            Tag::Svg => "<svg",
            Tag::Title => "<title",
            Tag::Group => "<g",
            Tag::Rect => "<rect",
            Tag::Use => "<use",
            Tag::Text => "<text",
            Tag::Path => "<path",
        }
    }

    /// Returns the tag that closes the element.
    #[tactic(auto, unfolding(crate::specs::Xml::closed))]
    pub fn close(self) -> &'static str
        ensures { result.now ≡ closed self }
    {
        match self {
            Tag::Svg => "</svg>",
            Tag::Title => "</title>",
            Tag::Group => "</g>",
            Tag::Rect => "</rect>",
            Tag::Use => "</use>",
            Tag::Text => "</text>",
            Tag::Path => "</path>",
        }
    }
}

impl Name {
    ghost use Rattle.std.specs.Prelude.{◌≡◌, ◌++◌, codes};
    ghost use Rattle.gabc_svg.specs.Xml.{text_of_name};

    /// Returns the begin of the attribute, with the blank before it, up to its value.
    pub fn begin(self) -> &'static str
        ensures { result.now ≡ codes " " ++ (text_of_name self ++ codes "=\"") }
    {
        match self {
            Name::Xmlns => " xmlns=\"",
            Name::Space => " xml:space=\"",
            Name::ViewBox => " viewBox=\"",
            Name::Width => " width=\"",
            Name::Height => " height=\"",
            Name::Class => " class=\"",
            Name::FontSize => " font-size=\"",
            Name::Role => " role=\"",
            Name::Transform => " transform=\"",
            Name::X => " x=\"",
            Name::Y => " y=\"",
            Name::Href => " href=\"",
            Name::TextLength => " textLength=\"",
            Name::LengthAdjust => " lengthAdjust=\"",
            Name::FontWeight => " font-weight=\"",
            Name::FontStyle => " font-style=\"",
            Name::FontVariant => " font-variant=\"",
            Name::FontFamily => " font-family=\"",
            Name::TextDecoration => " text-decoration=\"",
            Name::Id => " id=\"",
            Name::Begin => " data-begin=\"",
            Name::End => " data-end=\"",
            Name::Course => " d=\"",
        }
    }
}
