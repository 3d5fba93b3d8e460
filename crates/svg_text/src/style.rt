//! The root's beginning, the style sheet and the tips of arrows.

/// The root up to its size. It is one image, named by its title and its description.
pub(crate) const ROOT: &str =
    "<svg xmlns=\"http://www.w3.org/2000/svg\" role=\"img\" aria-labelledby=\"title desc\"";

/// Fonts, strokes and fills by class, and the tones' colours on light and on dark pages. Each colour has a contrast of at least
/// 4.5 to 1 to its page (Web Content Accessibility Guidelines 2.2, 1.4.3), also where the page is tinted.
pub(crate) const STYLE: &str = "<style>
text{fill:currentColor;stroke:none;font:14px Helvetica,Arial,sans-serif}
text.strong{font-weight:600}
text.code{font:13px 'DejaVu Sans Mono',Menlo,Consolas,monospace}
text.small{font-size:12px}
text.title{font-size:20px;font-weight:600}
.middle{text-anchor:middle}
.end{text-anchor:end}
line,path,rect,circle{stroke:currentColor;stroke-width:1.6;fill:none}
.thin{stroke-width:1}
.dashed{stroke-dasharray:6 3}
.mark{stroke-width:2.4;stroke-linecap:round}
.page{fill:#fff}
.tint{fill:currentColor;fill-opacity:.07;stroke-opacity:.5;stroke-width:1}
.full{fill:currentColor}
.sheet{fill:#fff;stroke:none}
.ink{color:#1b2733}
.quiet{color:#4b5a69}
.good{color:#166534}
.bad{color:#b91c1c}
.waiting{color:#8a4b08}
.accent{color:#1e429f}
.paper{color:#fff}
@media (prefers-color-scheme:dark){
.page,.sheet{fill:#0f1620}
.ink{color:#e6edf3}
.quiet{color:#a7b4c2}
.good{color:#4ade80}
.bad{color:#fca5a5}
.waiting{color:#fbbf24}
.accent{color:#a9c7ff}
.paper{color:#0f1620}
}
</style>
";

/// A tip for the arrows of each tone but that of paper, which takes its colour from the tone's class.
pub(crate) const TIPS: &str = "<defs>
<marker id=\"tip-ink\" viewBox=\"0 0 8 8\" refX=\"7\" refY=\"4\"
 markerWidth=\"7\" markerHeight=\"7\" orient=\"auto\"><path class=\"ink full\" d=\"M1 1L7 4L1 7z\"/></marker>
<marker id=\"tip-quiet\" viewBox=\"0 0 8 8\" refX=\"7\" refY=\"4\"
 markerWidth=\"7\" markerHeight=\"7\" orient=\"auto\"><path class=\"quiet full\" d=\"M1 1L7 4L1 7z\"/></marker>
<marker id=\"tip-good\" viewBox=\"0 0 8 8\" refX=\"7\" refY=\"4\"
 markerWidth=\"7\" markerHeight=\"7\" orient=\"auto\"><path class=\"good full\" d=\"M1 1L7 4L1 7z\"/></marker>
<marker id=\"tip-bad\" viewBox=\"0 0 8 8\" refX=\"7\" refY=\"4\"
 markerWidth=\"7\" markerHeight=\"7\" orient=\"auto\"><path class=\"bad full\" d=\"M1 1L7 4L1 7z\"/></marker>
<marker id=\"tip-waiting\" viewBox=\"0 0 8 8\" refX=\"7\" refY=\"4\"
 markerWidth=\"7\" markerHeight=\"7\" orient=\"auto\"><path class=\"waiting full\" d=\"M1 1L7 4L1 7z\"/></marker>
<marker id=\"tip-accent\" viewBox=\"0 0 8 8\" refX=\"7\" refY=\"4\"
 markerWidth=\"7\" markerHeight=\"7\" orient=\"auto\"><path class=\"accent full\" d=\"M1 1L7 4L1 7z\"/></marker>
</defs>
";
