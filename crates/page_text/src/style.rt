//! The style and the script of the pages.

/// The style: readable without it, in light and in dark, and on a narrow screen.
pub const STYLE: &str = r#":root {
  color-scheme: light dark;
  --text: #1b1b1f;
  --quiet: #55555e;
  --paper: #ffffff;
  --shade: #f1f1f4;
  --line: #c9c9d1;
  --link: #0b4fb3;
  --ready: #176b2c;
  --waits: #9a3412;
}
@media (prefers-color-scheme: dark) {
  :root {
    --text: #ececf1;
    --quiet: #b3b3bf;
    --paper: #16161a;
    --shade: #232329;
    --line: #45454f;
    --link: #8ab8ff;
    --ready: #7fd897;
    --waits: #ffb38a;
  }
}
body {
  margin: 0 auto;
  max-width: 75rem;
  padding: 1rem;
  font: 1rem/1.5 system-ui, sans-serif;
  color: var(--text);
  background: var(--paper);
}
a {
  color: var(--link);
}
a:focus-visible,
button:focus-visible,
input:focus-visible,
select:focus-visible {
  outline: 3px solid var(--link);
  outline-offset: 2px;
}
form {
  display: flex;
  flex-wrap: wrap;
  gap: 0.5rem 1rem;
  align-items: end;
  padding: 0.75rem;
  background: var(--shade);
}
form p {
  margin: 0;
}
label {
  display: block;
}
button,
input,
select {
  font: inherit;
}
table {
  width: 100%;
  border-collapse: collapse;
}
caption {
  padding: 0.5rem 0;
  text-align: left;
  color: var(--quiet);
}
td,
th {
  padding: 0.3rem 0.6rem 0.3rem 0;
  border-bottom: 1px solid var(--line);
  text-align: left;
  vertical-align: top;
}
td {
  overflow-wrap: anywhere;
}
th,
td:first-child {
  white-space: nowrap;
}
.ready {
  color: var(--ready);
}
.waits {
  color: var(--waits);
}
.drawing {
  overflow-x: auto;
}
.drawing svg {
  display: block;
}
.drawing line {
  stroke: var(--quiet);
}
.drawing rect {
  fill: var(--shade);
  stroke: var(--quiet);
}
.drawing rect.ready {
  stroke: var(--ready);
}
.drawing rect.waits {
  stroke: var(--waits);
}
.drawing text {
  fill: var(--link);
}
@media (max-width: 40rem) {
  thead {
    position: absolute;
    clip-path: inset(50%);
  }
  tr {
    display: block;
    padding: 0.4rem 0;
    border-bottom: 1px solid var(--line);
  }
  td,
  th {
    display: block;
    padding: 0;
    border: 0;
  }
}
"#;

/// The icon: a gate.
pub const ICON: &str =
    r##"<svg xmlns="http://www.w3.org/2000/svg" viewBox="0 0 16 16"><path fill="#176b2c" d="M2 2h2v12H2zM12 2h2v12h-2zM4 6h8v2H4z"/></svg>
"##;

/// The script: where the site says that something changed, it shows the page's live part anew, and so it does each
/// fifth time that it hears from the site: what a gate that was read again changes, and how long ago something was, no
/// number of items says. Nothing is lost where it doesn't run.
pub const SCRIPT: &str = r#""use strict";
(function () {
  if (!window.EventSource || !window.fetch || !window.DOMParser) {
    return;
  }
  var last = null;
  var alike = 0;
  function focused(live) {
    var place = document.activeElement;
    return place && live.contains(place) ? place.getAttribute("href") : null;
  }
  function focus(live, href) {
    live.querySelectorAll("a").forEach(function (link) {
      if (link.getAttribute("href") === href) {
        link.focus({ preventScroll: true });
      }
    });
  }
  function show(text) {
    var page = new DOMParser().parseFromString(text, "text/html");
    var fresh = page.getElementById("live");
    var live = document.getElementById("live");
    if (!fresh || !live) {
      return;
    }
    var href = focused(live);
    live.replaceWith(fresh);
    if (href !== null) {
      focus(fresh, href);
    }
  }
  function refresh() {
    fetch(window.location.href)
      .then(function (answer) {
        return answer.ok ? answer.text().then(show) : null;
      })
      .catch(function () {});
  }
  new EventSource("/api/v1/events").onmessage = function (event) {
    alike = last === null || last === event.data ? alike + 1 : 0;
    last = event.data;
    if (alike % 5 === 0) {
      refresh();
    }
  };
})();
"#;
