//! The words of a page: its elements, and the names of their attributes.
ghost use Rattle.std.specs.Prelude.{◌≡◌};
ghost use Rattle.view_page.specs.Words.{tag_text, empty_text, attribute_text, attribute_front};

/// An element with content, of HTML or of SVG.
#[derive(Clone, Copy, Debug, PartialEq, Eq)]
pub enum Tag {
    Head,
    Title,
    Style,
    Body,
    Header,
    Main,
    Nav,
    Section,
    Footer,
    H1,
    H2,
    H3,
    P,
    Div,
    Span,
    Pre,
    Code,
    Ol,
    Ul,
    Li,
    Dl,
    Dt,
    Dd,
    Table,
    Caption,
    Thead,
    Tbody,
    Tr,
    Th,
    Td,
    Details,
    Summary,
    Figure,
    Figcaption,
    B,
    Em,
    Svg,
    G,
    Defs,
    Marker,
    Desc,
    Text,
    Tspan,
    A,
    Data,
    Script,
}

/// What stands on a page and is marked.
#[derive(Clone, Copy, Debug, PartialEq, Eq)]
pub enum Part {
    /// An arrow, which carries its mark.
    Arrow,
    /// A text in an element of its own: its mark is the text.
    Words(Tag),
}

/// The name of an element with content.
pub fn tag_text(tag: Tag) -> &'static [u8]
    ensures { result.now ≡ tag_text tag }
{
    match tag {
        Tag::Head => b"head",
        Tag::Title => b"title",
        Tag::Style => b"style",
        Tag::Body => b"body",
        Tag::Header => b"header",
        Tag::Main => b"main",
        Tag::Nav => b"nav",
        Tag::Section => b"section",
        Tag::Footer => b"footer",
        Tag::H1 => b"h1",
        Tag::H2 => b"h2",
        Tag::H3 => b"h3",
        Tag::P => b"p",
        Tag::Div => b"div",
        Tag::Span => b"span",
        Tag::Pre => b"pre",
        Tag::Code => b"code",
        Tag::Ol => b"ol",
        Tag::Ul => b"ul",
        Tag::Li => b"li",
        Tag::Dl => b"dl",
        Tag::Dt => b"dt",
        Tag::Dd => b"dd",
        Tag::Table => b"table",
        Tag::Caption => b"caption",
        Tag::Thead => b"thead",
        Tag::Tbody => b"tbody",
        Tag::Tr => b"tr",
        Tag::Th => b"th",
        Tag::Td => b"td",
        Tag::Details => b"details",
        Tag::Summary => b"summary",
        Tag::Figure => b"figure",
        Tag::Figcaption => b"figcaption",
        Tag::B => b"b",
        Tag::Em => b"em",
        Tag::Svg => b"svg",
        Tag::G => b"g",
        Tag::Defs => b"defs",
        Tag::Marker => b"marker",
        Tag::Desc => b"desc",
        Tag::Text => b"text",
        Tag::Tspan => b"tspan",
        Tag::A => b"a",
        Tag::Data => b"data",
        Tag::Script => b"script",
    }
}

/// An element without content, of HTML or of SVG.
#[derive(Clone, Copy, Debug, PartialEq, Eq)]
pub enum Empty {
    Meta,
    Br,
    Hr,
    Col,
    Line,
    Path,
    Rect,
    Circle,
    Ellipse,
    Polyline,
    Polygon,
}

/// The name of an element without content.
pub fn empty_text(empty: Empty) -> &'static [u8]
    ensures { result.now ≡ empty_text empty }
{
    match empty {
        Empty::Meta => b"meta",
        Empty::Br => b"br",
        Empty::Hr => b"hr",
        Empty::Col => b"col",
        Empty::Line => b"line",
        Empty::Path => b"path",
        Empty::Rect => b"rect",
        Empty::Circle => b"circle",
        Empty::Ellipse => b"ellipse",
        Empty::Polyline => b"polyline",
        Empty::Polygon => b"polygon",
    }
}

/// The name of an attribute.
#[derive(Clone, Copy, Debug, PartialEq, Eq)]
pub enum Attribute {
    Class,
    Id,
    Style,
    Lang,
    Role,
    AriaLabel,
    AriaHidden,
    Title,
    Charset,
    Name,
    Content,
    Width,
    Height,
    ViewBox,
    PreserveAspectRatio,
    X,
    Y,
    X1,
    Y1,
    X2,
    Y2,
    Cx,
    Cy,
    R,
    Rx,
    Ry,
    Dx,
    Dy,
    D,
    Points,
    Transform,
    TextAnchor,
    DominantBaseline,
    FontSize,
    TextLength,
    LengthAdjust,
    Fill,
    Stroke,
    StrokeWidth,
    StrokeDasharray,
    MarkerEnd,
    MarkerWidth,
    MarkerHeight,
    RefX,
    RefY,
    Orient,
    Colspan,
    Rowspan,
    Scope,
    Open,
    Tabindex,
    Start,
    Value,
    Hidden,
    HttpEquiv,
    /// A link to an element of the same page, by its `Id`: a `#` stands before the value.
    Fragment,
}

/// The name of an attribute as it is written.
pub fn attribute_text(name: Attribute) -> &'static [u8]
    ensures { result.now ≡ attribute_text name }
{
    match name {
        Attribute::Class => b"class",
        Attribute::Id => b"id",
        Attribute::Style => b"style",
        Attribute::Lang => b"lang",
        Attribute::Role => b"role",
        Attribute::AriaLabel => b"aria-label",
        Attribute::AriaHidden => b"aria-hidden",
        Attribute::Title => b"title",
        Attribute::Charset => b"charset",
        Attribute::Name => b"name",
        Attribute::Content => b"content",
        Attribute::Width => b"width",
        Attribute::Height => b"height",
        Attribute::ViewBox => b"viewBox",
        Attribute::PreserveAspectRatio => b"preserveAspectRatio",
        Attribute::X => b"x",
        Attribute::Y => b"y",
        Attribute::X1 => b"x1",
        Attribute::Y1 => b"y1",
        Attribute::X2 => b"x2",
        Attribute::Y2 => b"y2",
        Attribute::Cx => b"cx",
        Attribute::Cy => b"cy",
        Attribute::R => b"r",
        Attribute::Rx => b"rx",
        Attribute::Ry => b"ry",
        Attribute::Dx => b"dx",
        Attribute::Dy => b"dy",
        Attribute::D => b"d",
        Attribute::Points => b"points",
        Attribute::Transform => b"transform",
        Attribute::TextAnchor => b"text-anchor",
        Attribute::DominantBaseline => b"dominant-baseline",
        Attribute::FontSize => b"font-size",
        Attribute::TextLength => b"textLength",
        Attribute::LengthAdjust => b"lengthAdjust",
        Attribute::Fill => b"fill",
        Attribute::Stroke => b"stroke",
        Attribute::StrokeWidth => b"stroke-width",
        Attribute::StrokeDasharray => b"stroke-dasharray",
        Attribute::MarkerEnd => b"marker-end",
        Attribute::MarkerWidth => b"markerWidth",
        Attribute::MarkerHeight => b"markerHeight",
        Attribute::RefX => b"refX",
        Attribute::RefY => b"refY",
        Attribute::Orient => b"orient",
        Attribute::Colspan => b"colspan",
        Attribute::Rowspan => b"rowspan",
        Attribute::Scope => b"scope",
        Attribute::Open => b"open",
        Attribute::Tabindex => b"tabindex",
        Attribute::Start => b"start",
        Attribute::Value => b"value",
        Attribute::Hidden => b"hidden",
        Attribute::HttpEquiv => b"http-equiv",
        Attribute::Fragment => b"href",
    }
}

/// What stands before the value of an attribute: a link leads to a place of the same page, and nowhere else.
pub fn attribute_front(name: Attribute) -> &'static [u8]
    ensures { result.now ≡ attribute_front name }
{
    match name {
        Attribute::Fragment => b"#",
        _ => b"",
    }
}
