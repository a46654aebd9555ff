//! How the page looks, in light and in dark.

/// The classes of all that is drawn. What is drawn differs by shape and word too, and not by its colour alone.
pub const STYLE: &str = "<style>
text{font:12px ui-monospace,'DejaVu Sans Mono',Menlo,Consolas,monospace;fill:#1f2733}
.page{fill:#ffffff}
.title{font-size:20px;font-weight:600;font-family:system-ui,'DejaVu Sans',sans-serif}
.section{font-size:15px;font-weight:600;font-family:system-ui,'DejaVu Sans',sans-serif}
.note,.key{font-family:system-ui,'DejaVu Sans',sans-serif;fill:#57606f}
.dim,.number,.value{fill:#57606f}
.name{font-weight:700}
.number,.on-dark,.on-light,.letter{text-anchor:middle}
.value{text-anchor:end}
.on-dark{fill:#ffffff}
.on-light{fill:#3b4454}
.letter{fill:#ffffff;font-size:10px;font-weight:700}
.done-words{fill:#14683a}
.partly-words{fill:#8a4b00}
.bad-words{fill:#b3261e}
.box,.frame{fill:#f3f5f8;stroke:#8792a2}
.frame{fill:#fafbfc}
.command{fill:#1f5fbf;stroke:#1f5fbf}
.state{fill:#ffffff;stroke:#57606f;stroke-width:1.5}
.claims,.leads,.reads{fill:none;stroke:#1f5fbf;stroke-width:1.5}
.leads{stroke:#7a3fb0;stroke-width:2.5}
.reads{stroke:#7c8797;stroke-width:1.2;stroke-dasharray:4 3}
.claims-tip{fill:#1f5fbf}
.leads-tip{fill:#7a3fb0}
.reads-tip{fill:#7c8797}
.grid,.rule{stroke:#dfe3e9}
.active{fill:#1f5fbf}
.chained{fill:#7a3fb0}
.link{stroke:#ffffff;stroke-width:2;stroke-dasharray:6 4}
.inactive{fill:#d5dbe4;stroke:#a7b0be}
.unconfigured{fill:none;stroke:#8792a2;stroke-dasharray:3 3}
.finalized{fill:#3b4454;stroke:#1f2733;stroke-width:2}
.done-disc{fill:#1d7a46}
.partly-disc{fill:#a85b00}
.bad-disc,.failure{fill:#c2321f;stroke:#ffffff}
.stop{fill:#1f2733;stroke:#ffffff;stroke-width:1.5}
.tick,.cross{fill:none;stroke:#ffffff;stroke-width:2}
.position-line{fill:none;stroke:#1f5fbf;stroke-width:2}
.command-line{fill:none;stroke:#c46a00;stroke-width:1.5;stroke-dasharray:5 3}
.dot{fill:#1f5fbf}
.hit{fill:#000000;fill-opacity:0}
@media (prefers-color-scheme:dark){
text{fill:#e4e8ee}
.page{fill:#14181f}
.note,.key,.dim,.number,.value{fill:#9fabbb}
.on-dark{fill:#ffffff}
.on-light{fill:#c9d1dc}
.done-words{fill:#6fd39b}
.partly-words{fill:#f0b268}
.bad-words{fill:#ff9a8d}
.box{fill:#1e2530;stroke:#66738a}
.frame{fill:#191f28;stroke:#66738a}
.command{fill:#6ea8ff;stroke:#6ea8ff}
.state{fill:#14181f;stroke:#9fabbb}
.claims{stroke:#6ea8ff}
.leads{stroke:#c79bf2}
.reads{stroke:#7c8797}
.claims-tip{fill:#6ea8ff}
.leads-tip{fill:#c79bf2}
.grid,.rule{stroke:#2b3340}
.active{fill:#2f6fd0}
.chained{fill:#8450bd}
.inactive{fill:#353f4d;stroke:#4a5667}
.unconfigured{stroke:#66738a}
.finalized{fill:#0a0d12;stroke:#9fabbb}
.bad-disc,.failure{stroke:#14181f}
.stop{fill:#e4e8ee;stroke:#14181f}
.position-line{stroke:#6ea8ff}
.dot{fill:#6ea8ff}
.command-line{stroke:#f0a848}
}
</style>
";
